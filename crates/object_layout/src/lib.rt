//! The words of values, headers and names, and the calls on a heap with their replies.
#![tactic(auto)]

mod calls;
mod errors;
mod headers;
mod names;
mod replies;
mod values;

pub use calls::{Call, Event};
pub use errors::{BadSlot, LogFull, NoMemory, NoPage, OutOfHeap, StackEmpty, StackFull};
pub use headers::{Header, decode_header, encode_header, field_count};
pub use names::{Name, decode_name, encode_name};
pub use replies::{Census, Refusal, Reply, Shortage};
pub use values::{Addr, Value, address, decode_value, encode_value};

/// The words of a page.
pub const PAGE_WORDS: u16 = 256;
/// The greatest depth of a thread: how many epochs it may have open at once.
pub const MAX_DEPTH: u8 = 8;
/// The greatest number of fields of an object, which with its three other words fills a page.
pub const MAX_FIELDS: u16 = 253;
/// The greatest length, in bytes, of a word that is counted.
pub const WORD_LIMIT: u32 = 1024;
/// The greatest number of threads of a heap.
pub const MAX_THREADS: u8 = 8;
/// The greatest heap word that a reference can name.
pub const MAX_ADDRESS: u32 = 16777215;
/// The greatest index of a space: that of the region of the last thread at the greatest depth.
pub const MAX_SPACE: u8 = 64;
/// The greatest integer that a value can hold.
pub const MAX_INT: u64 = 9223372036854775807;
/// The greatest serial of a name.
pub const MAX_SERIAL: u64 = 281474976710655;
/// What a thread counts for in a name's word.
pub const NAME_UNIT: u64 = 281474976710656;
/// The word of a header of no fields in Control.
pub const HEADER_BASE: u64 = 65536;
/// What a space counts for in a header's word.
pub const SPACE_UNIT: u64 = 256;
/// The words of an object before its fields: header, name and work word.
pub const OBJECT_WORDS: u16 = 3;

#[cfg(test)]
mod tests {
    use super::*;
    use std::test::Fail;

    #[test]
    fn words_are_those_of_the_layout(rt: HostRuntime) -> Result<(), Fail> {
        assert_eq!(rt; encode_value(Value::Int(7)), 15);
        assert_eq!(rt; encode_value(Value::Int(MAX_INT)), 18446744073709551615);
        assert_eq!(rt; encode_value(Value::Ref(Addr(0))), 2);
        assert_eq!(rt; encode_value(Value::Ref(Addr(19))), 40);
        assert_eq!(rt;
            encode_header(Header {
                fields: 16,
                space: 0
            }),
            65552
        );
        assert_eq!(rt;
            encode_header(Header {
                fields: 3,
                space: 1
            }),
            65795
        );
        assert_eq!(rt;
            encode_header(Header {
                fields: MAX_FIELDS,
                space: MAX_SPACE
            }),
            82173
        );
        assert_eq!(rt;
            encode_name(Name {
                thread: 0,
                serial: 0
            }),
            0
        );
        assert_eq!(rt;
            encode_name(Name {
                thread: 1,
                serial: 1
            }),
            281474976710657
        );
        assert_eq!(rt; decode_value(40), Some(Value::Ref(Addr(19))));
        assert_eq!(rt; decode_value(33554434), None);
        assert_eq!(rt; decode_header(65790), None);
        let first = Name {
            thread: 1,
            serial: 1,
        };
        assert_eq!(rt; decode_name(281474976710657), Some(first));
        assert_eq!(rt; decode_name(5), None);
        Ok(())
    }
}
