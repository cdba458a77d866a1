//! The colours and labels of pages.
ghost use Rattle.std.specs.Prelude.{◌≡◌, Some};
ghost use Rattle.heap_picture.specs.Colours.{colour_of, colour_text, label_text};

use epoch_lattice::Space;
use std::fmt;

/// A colour by its hue in degrees, and its saturation and lightness in percent. It is shown as `hsl(45,65%,70%)`.
#[derive(Clone, Copy, Drop)]
pub struct Colour {
    pub hue: u16,
    pub saturation: u16,
    pub lightness: u16,
}

impl fmt::Display for Colour {
    ghost output = { λ colour. Some (colour_text colour) };

    fn fmt<W: fmt::Write>(&self, f: &mut fmt::Formatter<W>) -> fmt::Result {
        let hue = self.hue;
        let saturation = self.saturation;
        let lightness = self.lightness;
        write!(f, "hsl({hue},{saturation}%,{lightness}%)")
    }
}

/// The colour of a page's space: pale where the page is free, grey for Control, and for a region a hue by its thread, which is the
/// darker the deeper the region is.
pub fn colour_of(space: Option<Space>) -> Colour
    ensures { result ≡ colour_of space }
{
    match space {
        None => Colour {
            hue: 0,
            saturation: 0,
            lightness: 85,
        },
        Some(Space::Control) => Colour {
            hue: 215,
            saturation: 15,
            lightness: 45,
        },
        Some(Space::Region { thread, depth }) => Colour {
            hue: 45 * u16::from(thread),
            saturation: 65,
            lightness: 80_u16.saturating_sub(7 * u16::from(depth)),
        },
    }
}

/// What a page is called in the picture: `free`, `control`, or `t.d` for the region of thread t at depth d.
#[derive(Clone, Copy, Drop)]
pub struct Label {
    pub space: Option<Space>,
}

impl fmt::Display for Label {
    ghost output = { λ label. Some (label_text label.space) };

    fn fmt<W: fmt::Write>(&self, f: &mut fmt::Formatter<W>) -> fmt::Result {
        match self.space {
            None => f.write_str("free"),
            Some(Space::Control) => f.write_str("control"),
            Some(Space::Region { thread, depth }) => write!(f, "{thread}.{depth}"),
        }
    }
}
