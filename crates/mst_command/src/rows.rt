//! The rows of the table of the program's words: of each what it is called, the places behind it, and what its help says: what it
//! does, and at the end its forms where it has several, its flags, its exit statuses (2 and 3 are those of every word), and two examples.

use crate::table::{Place, Row};

/// The place of a script, which several words have, and those of two networks.
const SCRIPT: Place<'static> = Place {
    name: "FILE",
    help: "The script, or - for standard input",
    is_wanted: true,
};

const OLD: Place<'static> = Place {
    name: "OLD",
    help: "The script of the network before, or - for standard input",
    is_wanted: true,
};

const NEW: Place<'static> = Place {
    name: "NEW",
    help: "The script of the network afterwards, or - for standard input",
    is_wanted: true,
};

/// The row of `run`.
pub(crate) const RUN: Row<'static> = Row {
    name: "run",
    about: "Runs a script",
    places: &[SCRIPT],
    is_json: true,
    forms: "\
Flags: --json, --hints. Without a word, mstplan runs the script on standard input.

Exit status: 0, or 1 where a line was refused; 2 and 3 as mstplan --help says.

Examples:
  mstplan run campus.script
  mstplan run --hints first.script",
};

/// The row of `check`.
pub(crate) const CHECK: Row<'static> = Row {
    name: "check",
    about: "Runs a script, and compares captured messages with the plan at its end",
    places: &[
        SCRIPT,
        Place {
            name: "CAPTURES",
            help: "The captured messages, one a line, or - for standard input",
            is_wanted: true,
        },
    ],
    is_json: true,
    forms: "\
Flags: --json, --hints.

Exit status: 0, or 1 where a line or a capture was refused, a capture differs from the plan, or no
capture is there; 2 and 3 as mstplan --help says.

Examples:
  mstplan check triangle.script triangle.captures
  captures triangle.tcpdump | mstplan check --json triangle.script -",
};

/// The row of `explain`.
pub(crate) const EXPLAIN: Row<'static> = Row {
    name: "explain",
    about: "Makes the network of a script, and tells why a port has its role there",
    places: &[
        SCRIPT,
        Place {
            name: "B",
            help: "The name of the port's bridge",
            is_wanted: true,
        },
        Place {
            name: "P",
            help: "The port's number",
            is_wanted: true,
        },
        Place {
            name: "TREE",
            help: "The tree, 0 to 4094. Without it, each that the bridge has",
            is_wanted: false,
        },
    ],
    is_json: true,
    forms: "\
Forms: mstplan explain FILE B P
       mstplan explain FILE B P TREE
Flags: --json, --hints.

Exit status: 0, or 1 where a line was refused or the port isn't explained; 2 and 3 as mstplan --help
says.

Examples:
  mstplan explain campus.script acc1 2
  mstplan explain --json campus.script acc1 2 1",
};

/// The row of `diff`.
pub(crate) const DIFF: Row<'static> = Row {
    name: "diff",
    about: "Makes the networks of two scripts, and tells what is another in the second",
    places: &[OLD, NEW],
    is_json: true,
    forms: "\
Flags: --json, --hints.

Exit status: 0, or 1 where a line was refused or the networks differ; 2 and 3 as mstplan --help
says.

Examples:
  mstplan diff campus.script campus-changed.script
  mstplan diff --json campus.script - < campus-changed.script",
};

/// The row of `sweep`.
pub(crate) const SWEEP: Row<'static> = Row {
    name: "sweep",
    about: "Makes the network of a script, and tells what each failure, each pair or each risk does to it",
    places: &[
        SCRIPT,
        Place {
            name: "PART",
            help: "K/N, the K-th of N equal parts; pairs; or a policy, for its risks. Else all failures",
            is_wanted: false,
        },
        Place {
            name: "OF_PAIRS",
            help: "K/N, the K-th of N equal parts of the pairs. Without it, all of them",
            is_wanted: false,
        },
    ],
    is_json: true,
    forms: "\
Forms: mstplan sweep FILE
       mstplan sweep FILE K/N
       mstplan sweep FILE pairs
       mstplan sweep FILE pairs K/N
       mstplan sweep FILE POLICY
Flags: --json, --hints.

Exit status: 0, or 1 where a line was refused or a failure, pair or risk cuts a VLAN; 2 and 3 as
mstplan --help says.

Examples:
  mstplan sweep campus.script
  mstplan sweep campus.script pairs 1/4",
};

/// The row of `summary`.
pub(crate) const SUMMARY: Row<'static> = Row {
    name: "summary",
    about: "Makes the network of a script, and tells its roots, what blocks and what LANs carry",
    places: &[SCRIPT],
    is_json: true,
    forms: "\
Flags: --json, --hints.

Exit status: 0, or 1 where a line was refused; 2 and 3 as mstplan --help says.

Examples:
  mstplan summary campus.script
  mstplan summary --json --hints campus.script",
};

/// The row of `dot`.
pub(crate) const DOT: Row<'static> = Row {
    name: "dot",
    about: "Makes the network of a script, and draws it with one of its trees or with a VLAN, for Graphviz",
    places: &[
        SCRIPT,
        Place {
            name: "TREE",
            help: "The tree, 0 to 4094, or the word vlan",
            is_wanted: true,
        },
        Place {
            name: "VID",
            help: "The VLAN behind the word vlan, 1 to 4094",
            is_wanted: false,
        },
    ],
    is_json: false,
    forms: "\
Forms: mstplan dot FILE TREE
       mstplan dot FILE vlan VID
Flags: --hints.

Exit status: 0, or 1 where a line was refused; 2 and 3 as mstplan --help says.

Examples:
  mstplan dot campus.script 0 | dot -Tsvg > campus.svg
  mstplan dot campus.script vlan 30",
};

/// The row of `ask`.
pub(crate) const ASK: Row<'static> = Row {
    name: "ask",
    about: "Makes the network of a script once, and answers the questions of it on standard input",
    places: &[
        Place {
            name: "FILE",
            help: "The script, or - for standard input, which then has no questions",
            is_wanted: true,
        },
        Place {
            name: "POLICY",
            help: "The file of the policy that a line verify asks by",
            is_wanted: false,
        },
    ],
    is_json: true,
    forms: "\
Forms: mstplan ask FILE
       mstplan ask FILE POLICY
Flags: --json, --hints.

Exit status: 0, or 1 where the answer to a line, or a line of FILE, has status 1; 2 and 3 as
mstplan --help says.

Examples:
  echo showtree 0 | mstplan ask campus.script
  echo verify | mstplan ask --json campus.script campus.policy",
};

/// The row of `verify`.
pub(crate) const VERIFY: Row<'static> = Row {
    name: "verify",
    about: "Makes the network of a script, and tells whether it does what a policy promises",
    places: &[
        SCRIPT,
        Place {
            name: "POLICY",
            help: "The policy, one promise a line, or - for standard input",
            is_wanted: true,
        },
    ],
    is_json: true,
    forms: "\
Flags: --json, --hints.

Exit status: 0, or 1 where a line was refused, a promise isn't kept, or nothing is promised; 2 and 3
as mstplan --help says.

Examples:
  mstplan verify campus.script campus.policy
  mstplan verify --json campus.script keep.policy",
};

/// The row of `edits`.
pub(crate) const EDITS: Row<'static> = Row {
    name: "edits",
    about: "Makes the networks of two scripts, and tells the edits that make the second of the first",
    places: &[OLD, NEW],
    is_json: true,
    forms: "\
Flags: --json, --hints.

Exit status: 0, or 1 where a line was refused or there is an edit; 2 and 3 as mstplan --help says.

Examples:
  mstplan edits campus.script campus-changed.script
  mstplan edits campus.script campus-changed.script | mstplan steps campus.script -",
};

/// The row of `steps`.
pub(crate) const STEPS: Row<'static> = Row {
    name: "steps",
    about: "Makes the network of a script, and tells what each step of a change does to it",
    places: &[
        SCRIPT,
        Place {
            name: "CHANGE",
            help: "The change, a script whose blank lines stand between its steps, or - for standard input",
            is_wanted: true,
        },
        Place {
            name: "POLICY",
            help: "The policy, which is looked at after each step, or - for standard input",
            is_wanted: false,
        },
    ],
    is_json: true,
    forms: "\
Forms: mstplan steps FILE CHANGE
       mstplan steps FILE CHANGE POLICY
Flags: --json, --hints.

Exit status: 0, or 1 where a line was refused, a step cuts a VLAN or breaks a promise of the policy,
or the last network doesn't keep one; 2 and 3 as mstplan --help says.

Examples:
  mstplan steps campus.script campus.change
  mstplan steps campus.script worse.change keep.policy",
};

/// The row of `advise`.
pub(crate) const ADVISE: Row<'static> = Row {
    name: "advise",
    about: "Makes the network of a script, and tells which settings bring about what is wanted",
    places: &[
        SCRIPT,
        Place {
            name: "GOAL",
            help: "What is wanted: root, or forward",
            is_wanted: true,
        },
        Place {
            name: "TREE",
            help: "The tree, 0 to 4094",
            is_wanted: true,
        },
        Place {
            name: "B",
            help: "The name of the bridge that is to be the root, or whose port is to forward",
            is_wanted: true,
        },
        Place {
            name: "P",
            help: "The number of the port that is to forward",
            is_wanted: false,
        },
    ],
    is_json: true,
    forms: "\
Forms: mstplan advise FILE root TREE B
       mstplan advise FILE forward TREE B P
Flags: --json, --hints.

Exit status: 0, or 1 where a line was refused or nothing is advised; 2 and 3 as mstplan --help says.

Examples:
  mstplan advise campus.script root 0 dist2
  mstplan advise --json campus.script forward 0 acc1 2",
};

/// The row of `path`.
pub(crate) const PATH: Row<'static> = Row {
    name: "path",
    about: "Makes the network of a script, and tells the path of a VLAN between two bridges there",
    places: &[
        SCRIPT,
        Place {
            name: "VID",
            help: "The VLAN, 1 to 4094",
            is_wanted: true,
        },
        Place {
            name: "A",
            help: "The name of the bridge that frames come from",
            is_wanted: true,
        },
        Place {
            name: "B",
            help: "The name of the bridge that they go to",
            is_wanted: true,
        },
        Place {
            name: "ALWAYS",
            help: "The word always: what becomes of the path after each single failure, too",
            is_wanted: false,
        },
    ],
    is_json: true,
    forms: "\
Forms: mstplan path FILE VID A B
       mstplan path FILE VID A B always
Flags: --json, --hints.

Exit status: 0, or 1 where a line was refused or there is no path, now or after some failure; 2 and
3 as mstplan --help says.

Examples:
  mstplan path campus.script 30 acc1 core1
  mstplan path --json campus.script 30 acc1 acc2 always",
};
