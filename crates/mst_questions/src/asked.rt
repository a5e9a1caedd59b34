ghost use Rattle.std.specs.Prelude.{◌≡◌, ◌<◌, ◌==◌, length, position, IfSome};
ghost use Rattle.std.specs.Option.{option_map};
ghost use Rattle.mst_lang.specs.Arguments as arguments;
ghost use Rattle.mst_questions.specs.Ask.{advice_question, dot_question, explain_question, pairs_question, picture_question, sweep_by_word, sweep_question, vlan_picture_question, wanted_of};
ghost use Rattle.mst_questions.specs.Asked.{asked_of, asked_tree, forward_of, halves_of, part_value, root_of, is_like_part as is_like_part_of, names_policy as names_policy_of};

use mst_advise::{Goal, SweepPart};
use mst_ids::{PortName, Tree, Vid};
use mst_lang::{Fault, name, parse_number, port_number, tree};

/// What is asked of the network that a script leaves.
#[derive(Clone, Copy)]
pub enum Question {
    /// Why a port has its role, in a tree or in each that its bridge has.
    Explain(Asked),
    /// Words were to ask for a port and don't: this fault is told.
    Unread(Fault),
    /// What each single failure of this part does: each LAN that is up going down, and each bridge that is on going off.
    Sweep(SweepPart),
    /// What each pair of failures of this part does: of which VIDs both together part bridges that either alone leaves joined.
    Pairs(SweepPart),
    /// The first screen: how much there is, roots, ports that block, islands of VIDs and what LANs carry.
    Summary,
    /// The picture of the network with this tree, as a text for Graphviz.
    Picture(Tree),
    /// The picture of the network with this VLAN, as a text for Graphviz.
    VlanPicture(Vid),
    /// A word was to name the tree or the VLAN of a picture and doesn't: this fault is told.
    Undrawn(Fault),
    /// Which settings bring about what is wanted of the network.
    Advice(Goal),
    /// Words were to say what is wanted and don't: this fault is told.
    Unadvised(Fault),
}

impl Question {
    /// What the words B, P and, where there is one, TREE ask: why this port has its role. They have the forms that a script's
    /// have, and a fault of them is a script's: [`Fault::E02`] where B or P isn't in its form, and else [`Fault::E03`] where
    /// TREE isn't.
    pub fn explain(bridge: &[u8], port: &[u8], tree: Option<&[u8]>) -> Question
        ensures { result ≡ explain_question bridge.now port.now (option_map (λ word. word.now) tree.entry) }
    {
        match Asked::read(bridge, port, tree) {
            Ok(asked) => Question::Explain(asked),
            Err(fault) => Question::Unread(fault),
        }
    }

    /// What the words behind a script ask, where there are any: what each single failure of the K-th of N equal parts does, the word
    /// being `K/N`, of two numbers in decimal, or, behind the word `pairs`, what each pair of such a part does. Without a word for
    /// the part it is what each of all does. Nothing for other words: also where K is 0 or above N, or N above 65,536.
    pub fn sweep(word: Option<&[u8]>, behind: Option<&[u8]>) -> Option<Question>
        ensures { result ≡ sweep_question (option_map (λ word. word.now) word.entry) (option_map (λ word. word.now) behind.entry) }
    {
        match word {
            None => Some(Question::Sweep(SweepPart::whole())),
            Some(word) => sweep_by(word, behind),
        }
    }

    /// What the word TREE asks: the picture with this tree. It has the form that a script's has, and else asks nothing, by the
    /// fault [`Fault::E03`].
    pub fn picture(word: &[u8]) -> Question
        ensures { result ≡ picture_question word.now }
    {
        match tree(word) {
            Ok(tree) => Question::Picture(tree),
            Err(fault) => Question::Undrawn(fault),
        }
    }

    /// What the words of a picture ask: it with the tree that the word names, or behind the word `vlan` with the VLAN that the one behind
    /// it names. Nothing for another word with one behind it.
    pub fn dot(word: &[u8], behind: Option<&[u8]>) -> Option<Question>
        ensures { result ≡ dot_question word.now (option_map (λ word. word.now) behind.entry) }
    {
        match behind {
            None => Some(Question::picture(word)),
            Some(vid) => {
                if word == b"vlan".as_slice() {
                    Some(Question::vlan_picture(vid))
                } else {
                    None
                }
            }
        }
    }

    /// What the word VID asks: the picture with this VLAN. It has the form that a script's has, and else asks nothing, by the
    /// fault [`Fault::E03`].
    pub fn vlan_picture(word: &[u8]) -> Question
        ensures { result ≡ vlan_picture_question word.now }
    {
        match vid(word) {
            Ok(vid) => Question::VlanPicture(vid),
            Err(fault) => Question::Undrawn(fault),
        }
    }

    /// What the words of an advice ask: behind `root` which settings make the bridge B the root of TREE, and behind `forward`, with
    /// P, which make the port forward there. They have the forms that a script's have, and a fault of them is a script's:
    /// [`Fault::E02`] where B or P isn't in its form, and else [`Fault::E03`] where TREE isn't. Nothing for another word, for P
    /// behind `root`, and for `forward` without it.
    pub fn advice(
        goal: &[u8],
        number: &[u8],
        bridge: &[u8],
        port: Option<&[u8]>,
    ) -> Option<Question>
        ensures { result ≡ advice_question goal.now number.now bridge.now (option_map (λ word. word.now) port.entry) }
    {
        match port {
            None => {
                if goal == b"root".as_slice() {
                    Some(wanted(root(number, bridge)))
                } else {
                    None
                }
            }
            Some(port) => {
                if goal == b"forward".as_slice() {
                    Some(wanted(forward(number, bridge, port)))
                } else {
                    None
                }
            }
        }
    }
}

/// What asks for advice, by what words want.
fn wanted(goal: Result<Goal, Fault>) -> Question
    ensures { result ≡ wanted_of goal }
{
    match goal {
        Ok(goal) => Question::Advice(goal),
        Err(fault) => Question::Unadvised(fault),
    }
}

/// That the bridge B is the root of TREE, or the first fault of these words.
fn root(number: &[u8], bridge: &[u8]) -> Result<Goal, Fault>
    ensures { result ≡ root_of number.now bridge.now }
{
    let bridge = name(bridge)?;
    let tree = tree(number)?;
    Ok(Goal::Root { tree, bridge })
}

/// That the port P of the bridge B forwards in TREE, or the first fault of these words.
fn forward(number: &[u8], bridge: &[u8], port: &[u8]) -> Result<Goal, Fault>
    ensures { result ≡ forward_of number.now bridge.now port.now }
{
    let bridge = name(bridge)?;
    let port = port_number(port)?;
    let tree = tree(number)?;
    Ok(Goal::Forward {
        tree,
        port: PortName {
            bridge,
            number: port,
        },
    })
}

/// A VLAN's identifier, 1 to 4094. [`Fault::E03`] where the word is none.
fn vid(word: &[u8]) -> Result<Vid, Fault>
    ensures { result ≡ arguments.vid word.now }
{
    let number = parse_number(word).ok_or(Fault::E03)?;
    Vid::new(number).ok_or(Fault::E03)
}

/// Which port is to be explained, and in which tree, or in each that its bridge has.
#[derive(Clone, Copy)]
pub struct Asked {
    /// The port.
    pub port: PortName,
    /// The tree, if one is asked of.
    pub tree: Option<Tree>,
}

impl Asked {
    /// What the words B, P and, where there is one, TREE ask for, or their first fault.
    fn read(bridge: &[u8], port: &[u8], tree: Option<&[u8]>) -> Result<Asked, Fault>
        ensures { result ≡ asked_of bridge.now port.now (option_map (λ word. word.now) tree.entry) }
    {
        let bridge = name(bridge)?;
        let number = port_number(port)?;
        let tree = some_tree(tree)?;
        Ok(Asked {
            port: PortName { bridge, number },
            tree,
        })
    }
}

/// A tree, if one is asked of.
fn some_tree(word: Option<&[u8]>) -> Result<Option<Tree>, Fault>
    ensures { result ≡ asked_tree (option_map (λ word. word.now) word.entry) }
{
    match word {
        None => Ok(None),
        Some(word) => match tree(word) {
            Ok(tree) => Ok(Some(tree)),
            Err(fault) => Err(fault),
        },
    }
}

/// What a word behind a script asks, and another behind that, if there is one.
fn sweep_by(word: &[u8], behind: Option<&[u8]>) -> Option<Question>
    ensures { result ≡ sweep_by_word word.now (option_map (λ word. word.now) behind.entry) }
{
    if word == b"pairs".as_slice() {
        return pairs_by(behind);
    }
    match behind {
        None => Some(Question::Sweep(sweep_part(word)?)),
        Some(_) => None,
    }
}

/// What a word behind `pairs` asks, if there is one.
fn pairs_by(part: Option<&[u8]>) -> Option<Question>
    ensures { result ≡ pairs_question (option_map (λ word. word.now) part.entry) }
{
    match part {
        None => Some(Question::Pairs(SweepPart::whole())),
        Some(word) => Some(Question::Pairs(sweep_part(word)?)),
    }
}

/// The part that a word `K/N` names.
fn sweep_part(word: &[u8]) -> Option<SweepPart>
    ensures { result ≡ part_value word.now }
{
    let (number, count) = halves(word)?;
    let number = parse_number(number)?;
    let count = parse_number(count)?;
    SweepPart::new(number, count)
}

/// Whether a word behind a script names a policy, by the word behind it, if there is one: there is none, and it is neither `pairs` nor of digits
/// and `/` alone.
pub fn names_policy(word: Option<&[u8]>, behind: Option<&[u8]>) -> bool
    ensures { result ≡ names_policy_of (option_map (λ word. word.now) word.entry) (option_map (λ word. word.now) behind.entry) }
{
    match (word, behind) {
        (Some(word), None) => word != b"pairs".as_slice() && !is_like_part(word),
        _ => false,
    }
}

/// Whether a word is of digits and `/` alone.
fn is_like_part(word: &[u8]) -> bool
    ensures { result ≡ is_like_part_of word.now }
{
    word.iter()
        .all(|byte| byte.is_ascii_digit() || *byte == b'/')
}

/// What stands before the first slash of a word and what stands after it.
fn halves(word: &[u8]) -> Option<(&[u8], &[u8])>
    ensures { option_map (λ halves. (halves.0.now, halves.1.now)) result ≡ halves_of word.now }
{
    let slash = first_slash(word)?;
    Some((&word[..slash], &word[slash + 1..]))
}

fn first_slash(word: &[u8]) -> Option<usize>
    ensures value { result ≡ position (λ b. b == 47) word.now }
    ensures within { IfSome result (λ slash. slash < length word.now) }
{
    word.iter().position(|byte| *byte == b'/')
}
