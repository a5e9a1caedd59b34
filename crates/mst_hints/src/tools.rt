ghost use Rattle.std.specs.Prelude.{◌≡◌, ◌∷◌, [], find};
ghost use Rattle.std.specs.List.{list_any};
ghost use Rattle.std.specs.Option.{option_map};
ghost use Rattle.mst_lang.specs.Words.{words};
ghost use Rattle.mst_hints.specs.Tools.{asks as asks_something, is_among, own_sayings, saying_among as saying_among_words, saying_in, sayings};

use crate::words::{has_word, next_word};

/// Words of this program and of a policy's lines, and what is said where one of them stands first in a line.
const OWN_SAYINGS: [(&[u8], &[u8]); 15] = [
    (b"run", b"run is a word of the program: mstplan run FILE"),
    (
        b"check",
        b"check is a word of the program: mstplan check FILE CAPTURES",
    ),
    (
        b"explain",
        b"explain is a word of the program: mstplan explain FILE B P TREE",
    ),
    (
        b"diff",
        b"diff is a word of the program: mstplan diff OLD NEW",
    ),
    (
        b"sweep",
        b"sweep is a word of the program: mstplan sweep FILE",
    ),
    (
        b"summary",
        b"summary is a word of the program: mstplan summary FILE",
    ),
    (
        b"dot",
        b"dot is a word of the program: mstplan dot FILE TREE",
    ),
    (b"ask", b"ask is a word of the program: mstplan ask FILE"),
    (
        b"verify",
        b"verify is a word of the program: mstplan verify FILE POLICY",
    ),
    (
        b"steps",
        b"steps is a word of the program: mstplan steps FILE CHANGE",
    ),
    (
        b"edits",
        b"edits is a word of the program: mstplan edits OLD NEW",
    ),
    (
        b"advise",
        b"advise is a word of the program: mstplan advise FILE root TREE B",
    ),
    (
        b"path",
        b"path is a word of the program: mstplan path FILE VID A B",
    ),
    (
        b"mstplan",
        b"mstplan 2 is the first line of a script of version 2, and stands in no other",
    ),
    (
        b"root region role reach apart together leaves leaf depth hops via carries avoids fits after always finally risk",
        b"that is a line of a policy: mstplan verify FILE POLICY",
    ),
];

/// Words of other tools that ask for the same, and what is said where one of them stands.
const SAYINGS: [(&[u8], &[u8]); 28] = [
    (
        b"show display print",
        b"showplan, showtree TREE, showvlan VID, showregions, showlag and shownotes show",
    ),
    (
        b"showroles showports",
        b"showtree TREE shows each port with its role, showplan those of all trees",
    ),
    (
        b"guard root-guard restricted-role restrictedrole",
        b"setportrestrrole B P yes|no is a root guard",
    ),
    (
        b"priority bridge-priority port-priority root setpriority setprio setportprio",
        b"settreeprio B TREE PRIO sets a bridge's priority, settreeportprio B P TREE PRIO a port's",
    ),
    (
        b"cost path-cost external-cost internal-cost setcost setpathcost setportcost",
        b"setportpathcost B P COST sets a port's external cost, settreeportcost B P TREE COST its internal one",
    ),
    (
        b"instance msti",
        b"setvid2mstid B TREE VIDS maps VIDs to a tree",
    ),
    (
        b"channel-group port-channel lacp bond setlag",
        b"setkey B P KEY gives the ports of a bundle one key on each side",
    ),
    (
        b"switchport tagged untagged allowed allow vid pvid",
        b"setportvlans B P VIDS|all|none sets the VLANs that a port is a member of",
    ),
    (
        b"vlan vlans setvlan",
        b"setvid2mstid B TREE VIDS maps VIDs to a tree, setportvlans B P VIDS|all|none sets those that a port is a member of",
    ),
    (
        b"addvlan delvlan",
        b"no VLAN is made: setportvlans B P VIDS|all|none sets those that a port is a member of, setvid2mstid B TREE VIDS maps VIDs to a tree",
    ),
    (
        b"name revision configuration config-name config-revision configuration-name region-name region-configuration setname setrevision",
        b"setmstconfid B REV CNAME sets the revision and the name of a bridge's configuration",
    ),
    (
        b"mode force-version",
        b"kind B mstp|rstp sets a bridge's kind",
    ),
    (
        b"max-hops max-age",
        b"setmaxhops B LIM and setmaxage B LIM set a bridge's limits",
    ),
    (
        b"hello-time forward-time forward-delay settimer setforwarddelay sethellotime portfast bpduguard edge edge-port",
        b"a plan has no timers and no edge ports",
    ),
    (
        b"shutdown disable",
        b"unplug B P takes a port out of its LAN, plug B P L puts it in, lan L up|down switches a LAN",
    ),
    (
        b"hostname sysname addbr add-br",
        b"addbridge B MAC adds a bridge",
    ),
    (
        b"addif add-port master port",
        b"addport B P adds a port, plug B P L puts it into a LAN",
    ),
    (
        b"add create",
        b"addbridge B MAC adds a bridge, addport B P a port, addlan L a LAN",
    ),
    (
        b"ip brctl ovs-vsctl",
        b"addbridge B MAC adds a bridge, addport B P a port, addlan L a LAN, and plug B P L puts a port in",
    ),
    (
        b"link cable connect",
        b"a link is a LAN: addlan L, and plug B P L for each of its ends",
    ),
    (
        b"rename",
        b"a name stays: what has another one is added anew, and the old one taken away",
    ),
    (
        b"undo no delete del remove rm",
        b"a later line sets anew what an earlier one set; delbridge B, delport B P, dellan L and unplug B P take away",
    ),
    (
        b"write copy",
        b"save prints a script that makes the network",
    ),
    (b"include", b"a script has no other one in it"),
    (b"//", b"a comment begins with #"),
    (
        b"fail what what-if",
        b"lan L down and bridge B off make a failure, mstplan sweep FILE tells what each of them does",
    ),
    (
        b"interface interfaces configure enable exit quit end commit",
        b"there are no modes: each line has a command with its bridge and port, and the last line ends the script",
    ),
    (
        b"spanning-tree stp set help ?",
        b"mstplan --help ends with all commands of a script",
    ),
];

/// Whether the word by itself asks for something.
pub(crate) fn asks(word: &[u8]) -> bool
    ensures { result ≡ asks_something word.now }
{
    saying_among(word, b"").is_some()
}

/// What is said of a line's first word, or of one of those behind it.
pub(crate) fn saying_among(word: &[u8], behind: &[u8]) -> Option<&'static [u8]>
    ensures { option_map (λ text. text.now) result ≡ saying_among_words word.now (words behind.now) }
{
    match own_saying(word) {
        Some(saying) => Some(saying),
        None => tool_saying(word, behind),
    }
}

/// What is said of a word of this program or of a policy's lines.
fn own_saying(word: &[u8]) -> Option<&'static [u8]>
    ensures { option_map (λ text. text.now) result ≡ saying_in own_sayings (word.now ∷ []) }
{
    let sayings = OWN_SAYINGS;
    first_among(sayings.as_slice(), word, b"")
}

/// What is said of words of other tools.
fn tool_saying(word: &[u8], behind: &[u8]) -> Option<&'static [u8]>
    ensures { option_map (λ text. text.now) result ≡ saying_in sayings (word.now ∷ words behind.now) }
{
    let sayings = SAYINGS;
    first_among(sayings.as_slice(), word, behind)
}

/// The first saying that the word or one of those behind it has.
fn first_among(
    sayings: &[(&[u8], &'static [u8])],
    word: &[u8],
    behind: &[u8],
) -> Option<&'static [u8]>
    ensures { result ≡ option_map (λ saying. saying.1) (find (λ saying. list_any (is_among saying.0.now) (word.now ∷ words behind.now)) sayings.now) }
{
    let (_, said) = sayings.iter().find(|(asking, _)| has_word(*asking, word)
        || shares_word(behind, *asking))?;
    Some(*said)
}

/// Whether some word of a text is one of those that ask for something.
fn shares_word(text: &[u8], asking: &[u8]) -> bool
    ensures { result ≡ list_any (is_among asking.now) (words text.now) }
{
    match next_word(text) {
        None => false,
        Some((word, others)) => has_word(asking, word) || shares_word(others, asking),
    }
}
