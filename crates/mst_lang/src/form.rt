ghost use Rattle.std.specs.Prelude.{◌≡◌, find, map};
ghost use Rattle.std.specs.Option.{option_map};
ghost use Rattle.mst_lang.specs.Arguments.{is_text};
ghost use Rattle.mst_lang.specs.Forms.{all_commands, command_of, range_of, row_of, word_of, written};

use crate::line::{Command, Version};

/// What stands in a place of a command's line.
#[derive(Clone, Copy)]
pub enum Argument {
    BridgeName,
    LanName,
    MacAddress,
    PortNumber,
    TreeNumber,
    BridgePriority,
    PortPriority,
    PathCost,
    PortKey,
    SystemPriority,
    Revision,
    HopLimit,
    AgeLimit,
    SpeedNumber,
    ConfigurationName,
    OnOrOff,
    BridgeKind,
    UpOrDown,
    YesOrNo,
    OneVid,
    VidList,
    /// A list of VIDs, or `all` or `none`.
    MemberList,
}

use Argument::*;

/// A command of the language.
#[derive(Clone, Copy)]
pub struct Form {
    /// The first word of its line.
    pub word: &'static [u8],
    /// The command.
    pub command: Command,
    /// What stands behind the word.
    pub arguments: &'static [Argument],
    /// What the command is for, as the program's page tells it.
    pub purpose: &'static str,
}

/// Forms, a line each: the word, the command, the arguments, and what it is for.
macro_rules! forms {
    ($($word:literal $command:ident [$($argument:ident)*] $purpose:literal;)*) => {
        [$(Form {
            word: $word,
            command: Command::$command,
            arguments: &[$($argument),*],
            purpose: $purpose,
        }),*]
    };
}

static FORMS: [Form; 35] = forms! {
    b"addbridge" AddBridge [BridgeName MacAddress] "a new bridge";
    b"delbridge" DelBridge [BridgeName] "takes it away";
    b"bridge" Bridge [BridgeName OnOrOff] "switches it";
    b"kind" Kind [BridgeName BridgeKind] "its kind";
    b"addport" AddPort [BridgeName PortNumber] "a new port";
    b"delport" DelPort [BridgeName PortNumber] "takes it away";
    b"addlan" AddLan [LanName] "a new LAN";
    b"dellan" DelLan [LanName] "takes it away";
    b"lan" Lan [LanName UpOrDown] "its state";
    b"speed" Speed [LanName SpeedNumber] "its speed in kb/s";
    b"plug" Plug [BridgeName PortNumber LanName] "puts the port into the LAN";
    b"unplug" Unplug [BridgeName PortNumber] "takes it out of its LAN";
    b"setkey" SetKey [BridgeName PortNumber PortKey] "the port's aggregation key, 0 for none";
    b"setsyspri" SetSysPri [BridgeName SystemPriority] "the bridge's system priority";
    b"settreeprio" SetTreePrio [BridgeName TreeNumber BridgePriority] "the bridge's priority in a tree, in steps of 4096";
    b"settreeportprio" SetTreePortPrio [BridgeName PortNumber TreeNumber PortPriority] "the port's priority in a tree, in steps of 16";
    b"setportpathcost" SetPortPathCost [BridgeName PortNumber PathCost] "the port's external path cost, 0 for automatic";
    b"setportrestrrole" SetPortRestrRole [BridgeName PortNumber YesOrNo] "whether the port's role is restricted";
    b"settreeportcost" SetTreePortCost [BridgeName PortNumber TreeNumber PathCost] "the port's internal path cost in a tree, 0 for automatic";
    b"setmstconfid" SetMstConfId [BridgeName Revision ConfigurationName] "the revision and the name of the bridge's MST configuration";
    b"setvid2mstid" SetVidToMstId [BridgeName TreeNumber VidList] "maps these VIDs to the tree";
    b"setmaxhops" SetMaxHops [BridgeName HopLimit] "the bridge's Max Hops";
    b"setmaxage" SetMaxAge [BridgeName AgeLimit] "the bridge's Max Age";
    b"setportvlans" SetPortVlans [BridgeName PortNumber MemberList] "the VLANs that the port is a member of";
    b"showplan" ShowPlan [] "prints all trees and what each VLAN reaches";
    b"showlag" ShowLag [] "prints the classes of links";
    b"showregions" ShowRegions [] "prints the regions";
    b"shownotes" ShowNotes [] "prints where limits bind, and which roles are restricted";
    b"showtree" ShowTree [TreeNumber] "prints the tree";
    b"showvlan" ShowVlan [OneVid] "prints what the VLAN reaches";
    b"showmstconfid" ShowMstConfId [BridgeName] "prints the bridge's MST configuration";
    b"mark" Mark [] "remembers the network for changes";
    b"changes" Changes [] "prints what has changed since the mark";
    b"save" Save [] "prints a script that makes the network";
    b"digest" Digest [] "prints the digest of that script";
};

/// Every command.
pub fn forms() -> &'static [Form]
    ensures { map written result.now ≡ map row_of all_commands }
{
    FORMS.as_slice()
}

/// The command of this word.
pub fn form_of(word: &[u8]) -> Option<&'static Form>
    ensures { option_map (λ form. written form.now) result ≡ option_map row_of (command_of word.now) }
{
    form_in(forms(), word)
}

fn form_in(forms: &'static [Form], word: &[u8]) -> Option<&'static Form>
    ensures { option_map (λ form. form.now) result ≡ find (λ form. is_text form.word.now word.now) forms.now }
{
    forms.iter().find(|form| form.word == word)
}

impl Argument {
    /// The word that stands for it where a command's form is told.
    pub fn word(self) -> &'static str
        ensures { result.now ≡ word_of self }
    {
        match self {
            BridgeName => "B",
            LanName => "L",
            MacAddress => "MAC",
            PortNumber => "P",
            TreeNumber => "TREE",
            BridgePriority => "PRIO",
            PortPriority => "PRIO",
            PathCost => "COST",
            PortKey => "KEY",
            SystemPriority => "SYS",
            Revision => "REV",
            HopLimit => "LIM",
            AgeLimit => "LIM",
            SpeedNumber => "KBPS",
            ConfigurationName => "CNAME",
            OnOrOff => "on|off",
            BridgeKind => "mstp|rstp",
            UpOrDown => "up|down",
            YesOrNo => "yes|no",
            OneVid => "VID",
            VidList => "VIDS",
            MemberList => "VIDS|all|none",
        }
    }

    /// Which words are in its form, in a script of this version.
    pub fn range(self, version: Version) -> &'static str
        ensures { result.now ≡ range_of version self }
    {
        match self {
            BridgeName => "B is 1 to 16 letters, digits, _, - and ., the first a letter or a digit",
            LanName => "L is 1 to 16 letters, digits, _, - and ., the first a letter or a digit",
            MacAddress => "MAC is six pairs of hexadecimal digits with : or - between",
            PortNumber => "P is 1 to 4095",
            TreeNumber => "TREE is 0 to 4094",
            BridgePriority => match version {
                Version::V1 => "PRIO is 0 to 15, in steps of 4096",
                Version::V2 => "PRIO is 0 to 61440, a multiple of 4096",
            },
            PortPriority => match version {
                Version::V1 => "PRIO is 0 to 15, in steps of 16",
                Version::V2 => "PRIO is 0 to 240, a multiple of 16",
            },
            PathCost => "COST is 0 to 200000000",
            PortKey => "KEY is 0 to 65535",
            SystemPriority => "SYS is 0 to 65535",
            Revision => "REV is 0 to 65535",
            HopLimit => "LIM is 6 to 40",
            AgeLimit => "LIM is 6 to 40",
            SpeedNumber => "KBPS is 1 to 9999999999, in kb/s",
            ConfigurationName => "CNAME is 1 to 32 bytes",
            OnOrOff => "it is on or off",
            BridgeKind => "it is mstp or rstp",
            UpOrDown => "it is up or down",
            YesOrNo => "it is yes or no",
            OneVid => "VID is 1 to 4094",
            VidList => "VIDS is VIDs of 1 to 4094 as in 1-9,20",
            MemberList => "VIDS is VIDs of 1 to 4094 as in 1-9,20",
        }
    }
}
