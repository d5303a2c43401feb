// Every refusal of the station, in the order in which its checks run.
#![tactic(auto)]

ghost use Rattle.std.specs.Prelude.{◌≡◌};
ghost use Rattle.refusal.specs.Numbers.{number_of};

use std::error::Error;
use std::fmt;

#[derive(Clone, Copy, Debug, PartialEq, Eq)]
pub enum Refusal {
    // The station.
    OutOfBounds = 1,
    NoCabinet = 2,
    NoTray = 3,
    BadFounders = 4,
    // The tray.
    EmptyTray = 5,
    // The cabinet.
    Stopped = 6,
    Running = 7,
    Unsound = 8,
    // The frame.
    FrameShort = 10,
    FrameKind = 11,
    FrameShape = 12,
    FrameField = 13,
    // The address.
    WrongAddress = 20,
    // The epoch.
    OldEpoch = 21,
    OtherEpoch = 22,
    // The role.
    NotLeading = 30,
    // The order.
    NotProper = 31,
    // The change of members.
    WrongVersion = 32,
    ChangePending = 33,
    BadMembers = 34,
    MembersBehind = 35,
    // The stand for election.
    NotInPlay = 36,
    EpochsSpent = 37,
    // The journal.
    Gap = 40,
    Full = 41,
    CommittedAltered = 42,
    TooMuchAcknowledged = 43,
    // The vote.
    VoterAhead = 44,
    // The question.
    NoPosition = 50,
    ListShort = 51,
}

impl Refusal {
    // The number by which callers, logs and the tables in docs/ know a refusal.
    pub fn number(self) -> u8
        ensures { result ≡ number_of self }
    {
        self as u8
    }

    // What was refused, in a few words for people.
    pub fn text(self) -> &'static str {
        match self {
            Refusal::OutOfBounds => "a part is outside its bounds",
            Refusal::NoCabinet => "no such cabinet",
            Refusal::NoTray => "no such tray, or too little memory",
            Refusal::BadFounders => "these cabinets cannot found a station",
            Refusal::EmptyTray => "the tray is empty",
            Refusal::Stopped => "the cabinet is stopped",
            Refusal::Running => "the cabinet is running already",
            Refusal::Unsound => "the cabinet's record or list is damaged",
            Refusal::FrameShort => "the frame is cut short",
            Refusal::FrameKind => "no such kind of frame",
            Refusal::FrameShape => "the frame's count, length or zeros are wrong",
            Refusal::FrameField => "a field or an entry of the frame is wrong",
            Refusal::WrongAddress => "the frame is not for this cabinet",
            Refusal::OldEpoch => "the frame's epoch is over",
            Refusal::OtherEpoch => "the frame does not fit the cabinet's epoch and role",
            Refusal::NotLeading => "the cabinet does not lead",
            Refusal::NotProper => "the order is not proper",
            Refusal::WrongVersion => "another version of the members is the last",
            Refusal::ChangePending => "the last change of members is not committed",
            Refusal::BadMembers => "these cabinets cannot be the members",
            Refusal::MembersBehind => "too few of the new members hold the list",
            Refusal::NotInPlay => "the cabinet is in no configuration in play",
            Refusal::EpochsSpent => "the cabinet has no epoch left",
            Refusal::Gap => "the entry lies beyond the list's end",
            Refusal::Full => "the list is full",
            Refusal::CommittedAltered => "the history alters or drops committed entries",
            Refusal::TooMuchAcknowledged => "more is acknowledged than the list holds",
            Refusal::VoterAhead => "the voter's list is later than the candidate's",
            Refusal::NoPosition => "no such position",
            Refusal::ListShort => "the list is too short",
        }
    }
}

// Its text.
impl fmt::Display for Refusal {
    fn fmt<W: fmt::Write>(&self, f: &mut fmt::Formatter<W>) -> fmt::Result {
        f.write_str(self.text())
    }
}

impl Error for Refusal {}
