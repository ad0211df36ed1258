// The vocabulary of direction blocking (document 01): settings, steps, the state of a section, answers.

#![tactic(auto)]

mod fresh_section;
pub mod kinds;
mod little_endian;
pub mod positions;
mod post_record;
mod refusals;
pub mod words;

pub use fresh_section::fresh;
pub use little_endian::{le16_of, truth_number};
pub use post_record::blank;
pub use refusals::{HasFigure, check};

pub const LEAST_POSTS: u8 = 2;

pub const MOST_POSTS: u8 = 16;

// Block sections: one fewer.
pub const MOST_BLOCKS: usize = MOST_POSTS as usize - 1;

pub const LARGEST_LINE: u16 = 999;

pub const LARGEST_TRAIN: u16 = 59999;

pub const MOST_SEALS: u16 = 999;

pub const STEP_LENGTH: usize = 8;

// The faults of a post: 1 to 4.
pub const LAST_FAULT: u8 = 4;

// The level crossings that settings can list.
pub const MOST_CROSSINGS: usize = 8;

// A byte of the crossings that is unused.
pub const UNUSED: u8 = 255;

// What a byte of the crossings has more where there are no counter-direction announcing zones.
pub const NO_ZONES: u8 = 128;

// The level crossings of a line, for both tracks: the block section of each, with NO_ZONES or without, or UNUSED.
pub type Crossings = [u8; MOST_CROSSINGS];

// What a line is: n posts, the form (0 telephone, 1 materialised), the mask of signalled posts, the line number, the level crossings.
// The form is a number, since settings out of their ranges are values too, which refusals 3 and 6 are for.
#[derive(Clone, Copy)]
pub struct Settings {
    pub posts: u8,
    pub form: u8,
    pub mask: u16,
    pub line: u16,
    pub crossings: Crossings,
}

// One: the section control reads occupied. Two: the device stays locked. Three: the CIRCULATION lamp is dark. Four: the announcing zones of
// the crossings ahead did not adapt.
#[derive(Clone, Copy, PartialEq, Eq)]
pub enum Fault {
    One,
    Two,
    Three,
    Four,
}

// A step: one of fourteen kinds, each with only the fields it needs. Caution: a caution form (E.S. 379) for a train is handed out.
#[derive(Clone, Copy)]
pub enum Step {
    Order { post: u8 },
    Set { post: u8 },
    Announce { post: u8 },
    Acknowledge { post: u8 },
    Start { post: u8, number: u16 },
    Pass { post: u8, number: u16 },
    Leave { post: u8, number: u16 },
    MeasuresOn { post: u8 },
    MeasuresOff { post: u8 },
    FaultOn { post: u8, fault: Fault },
    FaultOff { post: u8, fault: Fault },
    Release { post: u8, number: u16 },
    Key { post: u8 },
    Caution { post: u8, number: u16 },
}

// A step with its track: true for B, false for A.
#[derive(Clone, Copy)]
pub struct TrackStep {
    pub track: bool,
    pub step: Step,
}

// Which faults stand at a post.
#[derive(Clone, Copy, Default)]
pub struct Faults {
    pub one: bool,
    pub two: bool,
    pub three: bool,
    pub four: bool,
}

// What a post keeps on one track. `device`: its device stands at CVT. `caution`: the train for which a caution form lies there, 0 for none.
#[derive(Clone, Copy, Default)]
pub struct Post {
    pub device: bool,
    pub permission: bool,
    pub measures: bool,
    pub faults: Faults,
    pub mark: bool,
    pub seals: u16,
    pub caution: u16,
}

// What the turn's post is to do next.
#[derive(Clone, Copy, PartialEq, Eq)]
pub enum Act {
    Set,
    Announce,
    Acknowledge,
}

// No reversal is under way, or it is a post's turn for its act. Not an Option: `Settled` is the paper's word, and a None would say that something lacks.
#[derive(Clone, Copy, PartialEq, Eq)]
pub enum Walk {
    Settled,
    Turn(u8, Act),
}

// The records of a track's posts.
pub type Posts = [Post; MOST_POSTS as usize];

// The numbers of trains, one a block section: the trains there, or the last that entered.
pub type Trains = [u16; MOST_BLOCKS];

// A track. `cvt`: its running direction is CVT. Block section i lies between posts i and i + 1.
#[derive(Clone, Copy)]
pub struct Track {
    pub posts: Posts,
    pub trains: Trains,
    pub last: Trains,
    pub cvt: bool,
    pub walk: Walk,
}

#[derive(Clone, Copy)]
pub struct Section {
    pub settings: Settings,
    pub a: Track,
    pub b: Track,
}

// What a step says.
#[derive(Clone, Copy, PartialEq, Eq)]
pub enum Said {
    Nothing,
    Cvt,
    Cvtz,
    Vns,
    Vnsz,
}

// Why a step is refused, in the order of the paper's figures: 4, 6, 11 to 22.
#[derive(Clone, Copy, PartialEq, Eq)]
pub enum Refusal {
    Malformed,
    OutOfRange,
    ReversalUnderWay,
    NoSuchPart,
    Occupied,
    OtherNotOnVns,
    NotItsTurn,
    MeasuresNeeded,
    WrongTrain,
    FaultWithoutMark,
    DeviceLocked,
    SealsUsedUp,
    AlreadySo,
    CautionFormNeeded,
}

// What an accepted step says, or why it is refused.
pub type Verdict = Result<Said, Refusal>;

// Why a call over a file, a buffer or a run of steps is refused, in the order of the paper's figures: 1 to 6. A malformed step comes with its index.
#[derive(Clone, Copy, PartialEq, Eq)]
pub enum CallRefusal {
    WrongLength,
    WrongTrailer,
    WrongSettings,
    MalformedStep(usize),
    NoRoom,
    StateOutOfRange,
}

// How much is done (steps read or taken, bytes written or copied), or why the call is refused.
pub type Outcome = Result<usize, CallRefusal>;

// What the engine answers, and the section after the step.
#[derive(Clone, Copy)]
pub struct Answer {
    pub verdict: Verdict,
    pub section: Section,
}

// What a post shows on a track, in the paper's numbers: the lamp table, the panel and the C calls give these numbers and no words.
#[derive(Clone, Copy)]
pub struct Indications {
    pub circulation: u8,
    pub troncon: u8,
    pub permission: u8,
}
