// What every call gives back: a refusal as its number made negative, or a result.
#![tactic(auto)]

ghost use Rattle.std.specs.Prelude.{◌≡◌, ◌<◌, pos};
ghost use Rattle.answer.specs.Refusals as refusals;
ghost use Rattle.answer.specs.Refusals.{number};
ghost use Rattle.answer.specs.Answer.{signed, answered};
ghost use Rattle.answer.specs.Answer as answers;

// Why a call refuses what it was given, in the order of the numbers.
#[derive(Clone, Copy, Debug, PartialEq, Eq)]
pub enum Refusal {
    // The workspace is too short.
    WorkspaceShort,
    // An image is not 1 to 4 blocks, or a list is not 1 to 252 rules.
    BadLength,
    BadChecksum,
    // A job count, rule count, block number or number of blocks is wrong.
    BadHeader,
    // A rule names a job that is not there or more than four behind its move, or a byte that should be 0 is not.
    BadPlace,
    // Some job can never finish.
    NoNorm,
    JobNormHigh,
    // A plan names a job that is not there.
    NoSuchJob,
    PlanNormHigh,
    OutputShort,
    LogLength,
    AlikeLength,
    // A from-move stands twice in an alike list, or stands in it as a to-move.
    AlikeClash,
    // Two tables have too many jobs or rules together.
    TablesLarge,
}

impl Refusal {
    // Its number in the C interface.
    #[tactic(auto, unfolding(crate::specs::Refusals::number))]
    pub fn number(self) -> u8
        ensures { result ≡ number self }
    {
        match self {
            Refusal::WorkspaceShort => 1,
            Refusal::BadLength => 2,
            Refusal::BadChecksum => 3,
            Refusal::BadHeader => 4,
            Refusal::BadPlace => 5,
            Refusal::NoNorm => 6,
            Refusal::JobNormHigh => 7,
            Refusal::NoSuchJob => 8,
            Refusal::PlanNormHigh => 9,
            Refusal::OutputShort => 10,
            Refusal::LogLength => 11,
            Refusal::AlikeLength => 12,
            Refusal::AlikeClash => 13,
            Refusal::TablesLarge => 15,
        }
    }
}

// What a call gives back: a result as it is, a refusal as its number made negative.
#[tactic(auto, unfolding(crate::specs::Answer::answered))]
pub fn answer(outcome: Result<u16, Refusal>) -> i32
    ensures { result ≡ answered outcome }
{
    match outcome {
        Ok(value) => i32::from(value),
        Err(refusal) => refused(refusal.number()),
    }
}

// A refusal, made negative.
fn refused(refusal: u8) -> i32
    ensures { result ≡ signed refusal 0 }
{
    -(refusal as i32)
}
