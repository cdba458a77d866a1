//! The chains of recorded slots, the store buffers and the readers of regions.
#![tactic(auto)]

mod chains;
mod dropping;
mod filing;
mod links;
mod logging;
mod reading;

pub use chains::{drop_slot, first_slot, is_filed, move_slot, next_slot};
pub use dropping::{drop_slots_below, drop_slots_in};
pub use filing::add_slot;
pub use logging::{file_logs, log};
pub use reading::{clear_readers, readers, set_reader};

#[cfg(test)]
mod tests {
    use super::*;
    use epoch_lattice::{Space, index_of};
    use heap_words::{Image, set_heap, set_page};
    use object_layout::Addr;
    use std::test::Fail;

    #[test]
    fn slots_stand_in_the_chain_of_their_region(rt: HostRuntime) -> Result<(), Fail> {
        let mut image = match Image::new(rt.alloc(), 2, 1) {
            Ok(image) => image,
            Err(error) => panic!(rt; "no heap: {error}"),
        };
        let map = image.map();
        let region = Space::Region {
            thread: 1,
            depth: 1,
        };
        set_page(&mut image, map, 0, 0, 1);
        set_page(&mut image, map, 1, 0, u64::from(index_of(region)) + 1);
        set_heap(&mut image, map, 5, 2 * (256 + 1));
        set_heap(&mut image, map, 9, 2 * (256 + 1));
        add_slot(&mut image, map, Addr(5));
        add_slot(&mut image, map, Addr(9));
        add_slot(&mut image, map, Addr(7));
        let first = match first_slot(&mut image, map, region) {
            Some(slot) => slot,
            None => panic!(rt; "no slot is filed"),
        };
        assert_eq!(rt; first, Addr(9));
        assert_eq!(rt; next_slot(&mut image, map, first), Some(Addr(5)));
        assert_eq!(rt; is_filed(&mut image, map, Addr(5)), true);
        if is_filed(&mut image, map, Addr(7)) {
            panic!(rt; "a slot that enters no region is filed");
        }
        move_slot(&mut image, map, first, Addr(7));
        assert_eq!(rt; first_slot(&mut image, map, region), Some(Addr(7)));
        drop_slot(&mut image, map, Addr(7));
        let last = match first_slot(&mut image, map, region) {
            Some(slot) => slot,
            None => panic!(rt; "no slot is left"),
        };
        assert_eq!(rt; last, Addr(5));
        assert_eq!(rt; next_slot(&mut image, map, last), None);
        assert_eq!(rt; log(&mut image, map, 1, Addr(9)), Ok(()));
        file_logs(&mut image, map);
        assert_eq!(rt; first_slot(&mut image, map, region), Some(Addr(9)));
        drop_slots_in(&mut image, map, Space::Control);
        assert_eq!(rt; first_slot(&mut image, map, region), None);
        set_reader(&mut image, map, region, 1);
        assert_eq!(rt; readers(&mut image, map, region), 1);
        clear_readers(&mut image, map, region);
        Ok(())
    }
}
