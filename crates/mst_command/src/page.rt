/// The number of this release, which `--version` prints behind the program's name.
pub(crate) const VERSION: &str = "0.63.1";

/// What `--version --json` prints: the release, the version of the lines of JSON, and the latest version of scripts.
pub(crate) const VERSION_RECORD: &str =
    "{\"kind\":\"version\",\"release\":\"0.63.1\",\"json\":2,\"script\":2}\n";

/// What stands at the end of the program's help: the commands of scripts, the exit statuses, and where all of it is said.
pub(crate) const PAGE: &str = "\
Commands of a script, one a line (a line that begins with # is a comment):
  addbridge B MAC                 a new bridge
  delbridge B                     takes it away
  bridge B on|off                 switches it
  kind B mstp|rstp                its kind
  addport B P                     a new port
  delport B P                     takes it away
  addlan L                        a new LAN
  dellan L                        takes it away
  lan L up|down                   its state
  speed L KBPS                    its speed in kb/s
  plug B P L                      puts the port into the LAN
  unplug B P                      takes it out of its LAN
  setkey B P KEY                  the port's aggregation key, 0 for none
  setsyspri B SYS                 the bridge's system priority
  settreeprio B TREE PRIO         the bridge's priority in a tree, in steps of 4096
  settreeportprio B P TREE PRIO   the port's priority in a tree, in steps of 16
  setportpathcost B P COST        the port's external path cost, 0 for automatic
  settreeportcost B P TREE COST   the port's internal path cost in a tree, 0 for automatic
  setportrestrrole B P yes|no     whether the port's role is restricted
  setmstconfid B REV CNAME        the revision and the name of the bridge's MST configuration
  setvid2mstid B TREE VIDS        maps these VIDs to the tree
  setmaxhops B LIM                the bridge's Max Hops
  setmaxage B LIM                 the bridge's Max Age
  setportvlans B P VIDS|all|none  the VLANs that the port is a member of
  showtree TREE                   prints the tree
  showplan                        prints all trees and what each VLAN reaches
  showvlan VID                    prints what the VLAN reaches
  showregions                     prints the regions
  showmstconfid B                 prints the bridge's MST configuration
  shownotes                       prints where limits bind, and which roles are restricted
  showlag                         prints the classes of links
  mark                            remembers the network for changes
  changes                         prints what has changed since the mark
  save                            prints a script that makes the network
  digest                          prints the digest of that script

TREE is 0 for the CIST, VIDS are like 10,20-29. Behind a first line 'mstplan 2' priorities aren't steps but the numbers
themselves.

Lines that ask FILE answers on standard input, of the network that stands then; 'done STATUS' ends each answer:
  any of these commands           an edit changes the network
  explain B P, explain B P TREE, summary, sweep, sweep K/N, sweep pairs, sweep pairs K/N, sweep risks, dot TREE, dot vlan VID,
  path VID A B, path VID A B always
                                  what the program's words of these names print
  verify                          whether the network does what POLICY promises, as the word verify prints it
  undo, undo N                    takes back the last edit, or the last N

Lines of a policy, whose promises verify looks at in the network of FILE, and in that of each failure where a line says so:
  root TREE B, root TREE B next C the bridge is the root in its region, and C comes next
  region NAMES                    they are of one region
  role TREE PORTS ROLES           each port has one of the roles
  reach VIDS NAMES                each of the VLANs joins these bridges
  apart VIDS NAMES NAMES          none of the VLANs joins a bridge of the first list with one of the second
  leaves VIDS NAMES               none of the VLANs joins these bridges with others, and steps counts that as no cut
  together VIDS NAMES             what was joined before the failure, or before the change, stays joined
  leaf TREE NAMES                 none of them is the parent of a bridge
  depth TREE N                    no bridge has more than N parents above it
  hops VIDS N NAMES               no path between two of these bridges has more than N hops
  via VIDS A B C                  the path from A to B meets C
  carries L VIDS, avoids L VIDS   all of the VLANs go over the LAN, or none
  fits                            no limit binds
Before it stands nothing, 'after lan NAMES', 'after bridge NAMES', or 'always': in the network itself and after each failure. In front
of all may stand 'finally': steps looks at the network behind the last step alone. So it does for leaves, before which nothing stands.
NAMES are like core1,acc*, PORTS like acc1:2,dist*:*, ROLES like Root,Designated.

A change, of which steps tells what it does, is a script of edits: a step is made of the lines between two blank ones, and the network
settles after it. With a policy what each step changes of it is told, too. What edits prints is a change, one step of version 2.

Flags, anywhere among the words before --, behind which no word is a flag:
  --json    what is printed is JSON, a line for each answer, and for each record of a capture (run, check, explain, diff,
            sweep, summary, ask, verify, edits, steps, advise, path)
  --hints   standard error has what would be right in each line of a script, a policy or a change that isn't read, and what
            stands in the way of each line of a script that is refused

Exit statuses:
  0  nothing of the below
  1  a line or a capture was refused, a capture differs from the plan, a port isn't explained, two networks differ, a failure, a
     pair of failures or a step of a change cuts a VLAN, a promise of a policy isn't kept, or is broken by a step, there is no
     path, now or after a failure, or nothing is promised, captured or advised
  2  the program's words are wrong
  3  a file couldn't be opened, a read or a write failed, or memory was wanted and refused

docs/RULES.md in the repository has the whole language, and all that is printed.";
