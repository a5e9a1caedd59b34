ghost use Rattle.std.specs.Prelude.{◌≡◌, ◌&&◌, find, map};
ghost use Rattle.std.specs.Option.{option_map};
ghost use Rattle.mst_lang.specs.Arguments.{is_text};
ghost use Rattle.mst_lang.specs.Words.{words};
ghost use Rattle.mst_policy.specs.Forms.{all_kinds, is_right, kind_of as kind_of_words, may_stand as may_stand_in, range_of, row_of, takes as takes_words, word_of, written};

use crate::arguments::{are_names, are_ports, are_roles, steps};
use crate::expected::is_word;
use mst_lang::{Version, name, next_word, tree, vids};

/// What stands in a place behind the word of an expectation.
#[derive(Clone, Copy)]
pub enum Argument {
    Tree,
    /// The bridge that a path leads from.
    FirstBridge,
    Bridge,
    /// The word `next`.
    Next,
    /// Another bridge: the one that comes next, or that a path meets.
    NextBridge,
    Lan,
    Vids,
    /// A list of names, and of beginnings of names.
    Names,
    /// A list of ports.
    Ports,
    /// A list of roles.
    Roles,
    /// A number of steps or of hops.
    Steps,
}

/// Which form of an expectation it is.
#[derive(Clone, Copy)]
pub enum Kind {
    Root,
    /// A root, and which bridge comes next.
    RootNext,
    Region,
    Role,
    Reach,
    Apart,
    Leaves,
    Together,
    Leaf,
    Depth,
    Hops,
    Via,
    Carries,
    Avoids,
    Fits,
}

/// A form of an expectation.
#[derive(Clone, Copy)]
pub struct Form {
    /// The first of its words.
    pub word: &'static [u8],
    /// Which form it is.
    pub kind: Kind,
    /// What stands behind the word.
    pub arguments: &'static [Argument],
}

/// Forms, a line each: the word, which one it is, and the arguments.
macro_rules! forms {
    ($($word:literal $kind:ident [$($argument:ident)*];)*) => {
        [$(Form {
            word: $word,
            kind: Kind::$kind,
            arguments: &[$(Argument::$argument),*],
        }),*]
    };
}

static FORMS: [Form; 15] = forms! {
    b"root" Root [Tree Bridge];
    b"root" RootNext [Tree Bridge Next NextBridge];
    b"region" Region [Names];
    b"role" Role [Tree Ports Roles];
    b"reach" Reach [Vids Names];
    b"apart" Apart [Vids Names Names];
    b"leaves" Leaves [Vids Names];
    b"together" Together [Vids Names];
    b"leaf" Leaf [Tree Names];
    b"depth" Depth [Tree Steps];
    b"hops" Hops [Vids Steps Names];
    b"via" Via [Vids FirstBridge Bridge NextBridge];
    b"carries" Carries [Lan Vids];
    b"avoids" Avoids [Lan Vids];
    b"fits" Fits [];
};

/// Every form of an expectation. One word may have several.
pub fn forms() -> &'static [Form]
    ensures { map written result.now ≡ map row_of all_kinds }
{
    FORMS.as_slice()
}

/// The form of this word that takes the words behind it: these are as many as its arguments, and `next` stands where it has
/// that. Whether each is in the form of its argument, [`is_argument`] says.
pub fn form_of(word: &[u8], arguments: &[u8]) -> Option<&'static Form>
    ensures { option_map (λ form. written form.now) result ≡ option_map row_of (kind_of_words word.now (words arguments.now)) }
{
    form_in(forms(), word, arguments)
}

fn form_in(forms: &'static [Form], word: &[u8], arguments: &[u8]) -> Option<&'static Form>
    ensures { option_map (λ form. form.now) result ≡ find (λ form. is_text form.word.now word.now && takes_words form.arguments.now (words arguments.now)) forms.now }
{
    forms.iter().find(|form| form.word == word && takes(form.arguments, arguments))
}

/// Which form of this word takes the words behind it.
pub(crate) fn kind_of(word: &[u8], arguments: &[u8]) -> Option<Kind>
    ensures { result ≡ kind_of_words word.now (words arguments.now) }
{
    match form_of(word, arguments) {
        Some(form) => Some(form.kind),
        None => None,
    }
}

/// Whether these words may stand in the places of these arguments.
fn takes(form: &[Argument], arguments: &[u8]) -> bool
    ensures { result ≡ takes_words form.now (words arguments.now) }
{
    match form {
        [] => next_word(arguments).is_none(),
        [argument, form @ ..] => match next_word(arguments) {
            None => false,
            Some((word, others)) => may_stand(*argument, word) && takes(form, others),
        },
    }
}

/// Whether a word may stand in the place of an argument at all.
fn may_stand(argument: Argument, word: &[u8]) -> bool
    ensures { result ≡ may_stand_in argument word.now }
{
    match argument {
        Argument::Next => is_word(word, b"next"),
        _ => true,
    }
}

/// Whether a word is in the form of an argument.
pub fn is_argument(argument: Argument, word: &[u8]) -> bool
    ensures { result ≡ is_right argument word.now }
{
    match argument {
        Argument::Tree => tree(word).is_ok(),
        Argument::FirstBridge | Argument::Bridge | Argument::NextBridge | Argument::Lan => {
            name(word).is_ok()
        }
        Argument::Next => is_word(word, b"next"),
        Argument::Vids => vids(word).is_ok(),
        Argument::Names => are_names(word),
        Argument::Ports => are_ports(word),
        Argument::Roles => are_roles(word),
        Argument::Steps => steps(word).is_ok(),
    }
}

impl Argument {
    /// The word that stands for it where a form is told.
    pub fn word(self) -> &'static str
        ensures { result.now ≡ word_of self }
    {
        match self {
            Argument::Tree => mst_lang::Argument::TreeNumber.word(),
            Argument::FirstBridge => "A",
            Argument::Bridge => mst_lang::Argument::BridgeName.word(),
            Argument::Next => "next",
            Argument::NextBridge => "C",
            Argument::Lan => mst_lang::Argument::LanName.word(),
            Argument::Vids => mst_lang::Argument::VidList.word(),
            Argument::Names => "NAMES",
            Argument::Ports => "PORTS",
            Argument::Roles => "ROLES",
            Argument::Steps => "N",
        }
    }

    /// Which words are in its form.
    pub fn range(self) -> &'static str
        ensures { result.now ≡ range_of self }
    {
        match self {
            Argument::Tree => mst_lang::Argument::TreeNumber.range(Version::V1),
            Argument::FirstBridge => {
                "A is 1 to 16 letters, digits, _, - and ., the first a letter or a digit"
            }
            Argument::Bridge => mst_lang::Argument::BridgeName.range(Version::V1),
            Argument::Next => "it is next",
            Argument::NextBridge => {
                "C is 1 to 16 letters, digits, _, - and ., the first a letter or a digit"
            }
            Argument::Lan => mst_lang::Argument::LanName.range(Version::V1),
            Argument::Vids => mst_lang::Argument::VidList.range(Version::V1),
            Argument::Names => {
                "NAMES is names, or beginnings of names with * behind, as in core1,acc*"
            }
            Argument::Ports => "PORTS is ports, or all of a bridge, as in core1:1,acc*:2,dist1:*",
            Argument::Roles => {
                "ROLES is of Root, Designated, Alternate, Backup, Master and Disabled, as in Root,Designated"
            }
            Argument::Steps => "N is 0 to 1024",
        }
    }
}
