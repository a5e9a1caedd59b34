use crate::key::Key;
use crate::mark::Mark;

/// What stands at a place of a row.
#[derive(Clone, Copy)]
pub enum Part {
    /// A word of the line alone.
    Mark(Mark),
    /// The next value.
    Key(Key),
    /// The next value, whose words have `,` between them in the line.
    Commas(Key),
    /// The next value, of the record alone: the line has it from its place.
    Above(Key),
    /// A word of the line, which the record has by this key.
    Said(Key, Mark),
    /// A word that the record alone has.
    Told(Key, Mark),
    /// The next value, a port: the record has its `bridge` and its `port`.
    Port,
    /// The same, of the record alone.
    AbovePort,
}

/// A part, by its words.
macro_rules! part {
    (Port) => {
        $crate::part::Part::Port
    };
    (AbovePort) => {
        $crate::part::Part::AbovePort
    };
    (Mark $mark:ident) => {
        $crate::part::Part::Mark($crate::mark::Mark::$mark)
    };
    (Said $key:ident $mark:ident) => {
        $crate::part::Part::Said($crate::key::Key::$key, $crate::mark::Mark::$mark)
    };
    (Told $key:ident $mark:ident) => {
        $crate::part::Part::Told($crate::key::Key::$key, $crate::mark::Mark::$mark)
    };
    ($part:ident $key:ident) => {
        $crate::part::Part::$part($crate::key::Key::$key)
    };
}

/// Parts, as `Key Bridge, Mark Root, Said Power Off`.
macro_rules! parts {
    ($($($word:ident)+),*) => {
        &[$($crate::part::part!($($word)+)),*]
    };
}

pub(crate) use part;
pub(crate) use parts;
