// Why a call refuses. docs/RULES.md, "Who can be turned away, and by which number", says what each means and who can meet it.
ghost use Rattle.std.specs.Prelude.{◌≡◌};
ghost use Rattle.codec.specs.Refusal.{number, refusals};

#[derive(Clone, Copy, Debug, PartialEq, Eq)]
pub enum Refusal {
    // The miner or extension author.
    BodyShort = 1,
    CountUnreadable = 2,
    FieldHeaderCut = 3,
    ValueLong = 4,
    ValueCut = 5,
    ParameterSize = 6,
    UpdateUnreadable = 7,
    MandatoryDisabled = 8,
    TooManyVotes = 9,
    RepeatedVote = 10,
    ContradictoryVote = 11,
    ForkVoteBarred = 12,
    UnknownParameter = 13,
    AbsentParameter = 14,
    EntryDiffers = 15,
    BlockVersionDiffers = 16,
    // The supplier of tables and settings.
    VotingLengthZero = 17,
    SettingLarge = 18,
    VotesCollectedAbsent = 19,
    BlockVersionAbsent = 20,
    // The caller.
    OutputShort = 21,
    InputLong = 22,
    StatusRuleLow = 23,
    WrittenValueLong = 24,
    WindowLengthOutside = 33,
    // The archive.
    RecordMalformed = 25,
    HeightUnexpected = 26,
}

impl Refusal {
    // Its number.
    pub fn number(self) -> u8
        ensures { result ≡ number self }
    {
        self as u8
    }
}

// All of them, in the order of the list.
pub fn refusals() -> [Refusal; 27]
    ensures { result ≡ refusals }
{
    [
        Refusal::BodyShort,
        Refusal::CountUnreadable,
        Refusal::FieldHeaderCut,
        Refusal::ValueLong,
        Refusal::ValueCut,
        Refusal::ParameterSize,
        Refusal::UpdateUnreadable,
        Refusal::MandatoryDisabled,
        Refusal::TooManyVotes,
        Refusal::RepeatedVote,
        Refusal::ContradictoryVote,
        Refusal::ForkVoteBarred,
        Refusal::UnknownParameter,
        Refusal::AbsentParameter,
        Refusal::EntryDiffers,
        Refusal::BlockVersionDiffers,
        Refusal::VotingLengthZero,
        Refusal::SettingLarge,
        Refusal::VotesCollectedAbsent,
        Refusal::BlockVersionAbsent,
        Refusal::OutputShort,
        Refusal::InputLong,
        Refusal::StatusRuleLow,
        Refusal::WrittenValueLong,
        Refusal::RecordMalformed,
        Refusal::HeightUnexpected,
        Refusal::WindowLengthOutside,
    ]
}
