ghost use Rattle.std.specs.Prelude.{◌≡◌, map};
ghost use Rattle.mst_rows.specs.Fields.{field};
ghost use Rattle.mst_rows.specs.Objects.{cist_vector as cist_of, msti_vector as msti_of, mstp_region as mstp_of, rstp_region as rstp_of};

use mst_kinds::Key;

/// A field of an object: its key, and its value, which stands in a line alone.
#[derive(Clone, Copy)]
pub(crate) struct Field<'a>(pub(crate) Key, pub(crate) Simple<'a>);

/// The value of a field.
#[derive(Clone, Copy)]
pub(crate) enum Simple<'a> {
    /// Nothing: `-` in a line.
    Absent,
    /// A word, a name or an identifier.
    Word(&'a [u8]),
    /// A number.
    Number(u64),
}

/// The fields of a priority vector of the CIST, by the texts of its identifiers and its costs.
pub(crate) fn cist_vector<'a>(
    root: &'a [u8],
    ext: u64,
    regional: &'a [u8],
    int: u64,
    designated: &'a [u8],
    port: &'a [u8],
    receiver: &'a [u8],
) -> [Field<'a>; 7]
    ensures { map field result ≡ cist_of root.now ext regional.now int designated.now port.now receiver.now }
{
    [
        Field(Key::RootId, Simple::Word(root)),
        Field(Key::Ext, Simple::Number(ext)),
        Field(Key::RegionalId, Simple::Word(regional)),
        Field(Key::Int, Simple::Number(int)),
        Field(Key::DesignatedId, Simple::Word(designated)),
        Field(Key::DesignatedPortId, Simple::Word(port)),
        Field(Key::ReceiverId, Simple::Word(receiver)),
    ]
}

/// The fields of a priority vector of an MSTI, by the texts of its identifiers and its cost.
pub(crate) fn msti_vector<'a>(
    regional: &'a [u8],
    int: u64,
    designated: &'a [u8],
    port: &'a [u8],
    receiver: &'a [u8],
) -> [Field<'a>; 5]
    ensures { map field result ≡ msti_of regional.now int designated.now port.now receiver.now }
{
    [
        Field(Key::RegionalId, Simple::Word(regional)),
        Field(Key::Int, Simple::Number(int)),
        Field(Key::DesignatedId, Simple::Word(designated)),
        Field(Key::DesignatedPortId, Simple::Word(port)),
        Field(Key::ReceiverId, Simple::Word(receiver)),
    ]
}

/// The fields of a region of kind mstp: its name, its revision and its first bridge.
pub(crate) fn mstp_region<'a>(name: &'a [u8], revision: u64, first: &'a [u8]) -> [Field<'a>; 3]
    ensures { map field result ≡ mstp_of name.now revision first.now }
{
    [
        Field(Key::Name, Simple::Word(name)),
        Field(Key::Revision, Simple::Number(revision)),
        Field(Key::Region, Simple::Word(first)),
    ]
}

/// The fields of a region of kind rstp: its bridge.
pub(crate) fn rstp_region<'a>(first: &'a [u8]) -> [Field<'a>; 3]
    ensures { map field result ≡ rstp_of first.now }
{
    [
        Field(Key::RegionKind, Simple::Word(b"rstp")),
        Field(Key::Revision, Simple::Absent),
        Field(Key::Region, Simple::Word(first)),
    ]
}
