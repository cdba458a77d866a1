//! The parts of a picture. A unit of its drawing is a word of a page.
ghost use Rattle.std.specs.Prelude.{◌≡◌, ◌≤◌, Some};
ghost use Rattle.heap_words.specs.Map.{HasPage, IsAreas, page_words};
ghost use Rattle.heap_picture.specs.Boxes.{box_of, box_text, boxes_height, caption_text, counts_text, filling_text, frame_of, frame_text, name_text, square_text};

use crate::colours::{Colour, Label, colour_of};
use epoch_lattice::Space;
use heap_words::Areas;
use object_layout::Census;
use std::fmt;

/// The boxes of a row.
pub const COLUMNS: u64 = 12;
/// The room between boxes, and around them.
pub const GAP: u64 = 32;
/// The height of a line of text.
pub const LINE: u64 = 96;
/// Where the letters of a line stand, from its top.
pub const BASELINE: u64 = 72;

/// The size of a picture.
#[derive(Clone, Copy, Drop)]
pub struct Frame {
    pub width: u64,
    pub height: u64,
}

impl fmt::Display for Frame {
    ghost output = { λ frame. Some (frame_text frame) };

    fn fmt<W: fmt::Write>(&self, f: &mut fmt::Formatter<W>) -> fmt::Result {
        let width = self.width;
        let height = self.height;
        write!(
            f,
            "<svg xmlns=\"http://www.w3.org/2000/svg\" viewBox=\"0 0 {width} {height}\" width=\"800\" font-family=\"sans-serif\" font-size=\"64\">\n\
            <title>The pages of a heap</title>\n\
            <rect width=\"{width}\" height=\"{height}\" fill=\"white\"/>\n"
        )
    }
}

/// The square of a page, in the colour of its space.
#[derive(Clone, Copy, Drop)]
pub struct Square {
    pub left: u64,
    pub top: u64,
    pub side: u64,
    pub colour: Colour,
}

impl fmt::Display for Square {
    ghost output = { λ square. Some (square_text square) };

    fn fmt<W: fmt::Write>(&self, f: &mut fmt::Formatter<W>) -> fmt::Result {
        let left = self.left;
        let top = self.top;
        let side = self.side;
        let colour = self.colour;
        write!(
            f,
            "<rect x=\"{left}\" y=\"{top}\" width=\"{side}\" height=\"{side}\" fill=\"white\" stroke=\"{colour}\" stroke-width=\"8\"/>\n"
        )
    }
}

/// The part of a page's square that is filled.
#[derive(Clone, Copy, Drop)]
pub struct Filling {
    pub left: u64,
    pub top: u64,
    pub width: u64,
    pub height: u64,
    pub colour: Colour,
}

impl fmt::Display for Filling {
    ghost output = { λ filling. Some (filling_text filling) };

    fn fmt<W: fmt::Write>(&self, f: &mut fmt::Formatter<W>) -> fmt::Result {
        let left = self.left;
        let top = self.top;
        let width = self.width;
        let height = self.height;
        let colour = self.colour;
        write!(
            f,
            "<rect x=\"{left}\" y=\"{top}\" width=\"{width}\" height=\"{height}\" fill=\"{colour}\"/>\n"
        )
    }
}

/// What a page is called, below its square.
#[derive(Clone, Copy, Drop)]
pub struct PageName {
    pub left: u64,
    pub baseline: u64,
    pub label: Label,
}

impl fmt::Display for PageName {
    ghost output = { λ name. Some (name_text name) };

    fn fmt<W: fmt::Write>(&self, f: &mut fmt::Formatter<W>) -> fmt::Result {
        let left = self.left;
        let baseline = self.baseline;
        let label = self.label;
        write!(f, "<text x=\"{left}\" y=\"{baseline}\">{label}</text>\n")
    }
}

/// The box of a page.
#[derive(Clone, Copy, Drop)]
pub struct PageBox {
    pub square: Square,
    pub filling: Filling,
    pub name: PageName,
}

impl fmt::Display for PageBox {
    ghost output = { λ shown. Some (box_text shown) };

    fn fmt<W: fmt::Write>(&self, f: &mut fmt::Formatter<W>) -> fmt::Result {
        let square = self.square;
        let filling = self.filling;
        let name = self.name;
        write!(f, "{square}{filling}{name}")
    }
}

/// How many pages are free, of regions and of Control.
#[derive(Clone, Copy, Drop)]
pub struct PageCounts {
    pub census: Census,
}

impl fmt::Display for PageCounts {
    ghost output = { λ counts. Some (counts_text counts.census) };

    fn fmt<W: fmt::Write>(&self, f: &mut fmt::Formatter<W>) -> fmt::Result {
        let free = self.census.free;
        let region = self.census.region;
        let control = self.census.control;
        write!(
            f,
            "{free} free, {region} of regions (thread.depth), {control} of control"
        )
    }
}

/// What stands below the boxes: the counts of pages, and how many of all words are in use.
#[derive(Clone, Copy, Drop)]
pub struct Caption {
    pub left: u64,
    pub baseline: u64,
    pub counts: PageCounts,
    pub used: u64,
    pub all: u64,
}

impl fmt::Display for Caption {
    ghost output = { λ caption. Some (caption_text caption) };

    fn fmt<W: fmt::Write>(&self, f: &mut fmt::Formatter<W>) -> fmt::Result {
        let left = self.left;
        let baseline = self.baseline;
        let counts = self.counts;
        let used = self.used;
        let all = self.all;
        write!(
            f,
            "<text x=\"{left}\" y=\"{baseline}\">pages: {counts}; words in use: {used} of {all}</text>\n</svg>\n"
        )
    }
}

/// The height of the boxes of all pages with their labels, and of the room above them.
pub fn boxes_height(map: Areas) -> u64
    requires { IsAreas map }
    ensures { result ≡ boxes_height map }
{
    let rows = (u64::from(map.pages) + (COLUMNS - 1)) / COLUMNS;
    GAP + (u64::from(map.page_words()) + LINE) * rows
}

/// The size of the picture of a heap.
pub fn frame_of(map: Areas) -> Frame
    requires { IsAreas map }
    ensures { result ≡ frame_of map }
{
    Frame {
        width: GAP + (u64::from(map.page_words()) + GAP) * COLUMNS,
        height: boxes_height(map) + LINE + GAP,
    }
}

/// The box of a page that belongs to a space, or is free, and of which so many words are in use.
pub fn box_of(map: Areas, page: u32, space: Option<Space>, used: u64) -> PageBox
    requires areas { IsAreas map }
    requires page { HasPage map page }
    requires used { used ≤ page_words map }
    ensures { result ≡ box_of map page space used }
{
    let side = u64::from(map.page_words());
    let left = GAP + (side + GAP) * (u64::from(page) % COLUMNS);
    let top = GAP + (side + LINE) * (u64::from(page) / COLUMNS);
    let colour = colour_of(space);
    PageBox {
        square: Square {
            left,
            top,
            side,
            colour,
        },
        filling: Filling {
            left,
            top: top + (side - used),
            width: side,
            height: used,
            colour,
        },
        name: PageName {
            left,
            baseline: top + side + BASELINE,
            label: Label { space },
        },
    }
}
