// The calls of an alarm, and what an alarm answers to each.
ghost use Rattle.std.specs.Prelude.{◌≡◌};
ghost use Rattle.replay.specs.Answers.{Answers, told};

use answers::{AlarmAnswer, Answer};
use clock::alarm::Alarm;
use fault::Fault;

// X is the kind of sample.
#[derive(Clone, Copy)]
pub enum Call<X> {
    Width,
    Reach,
    Reading,
    Take(X),
    Set { reference: u64, delay: u64 },
    Stop,
    Claim,
    Hold,
}

impl<X> Call<X> {
    // The call with its sample, if it has one, as f turns it.
    pub(crate) fn try_map<Y, E, F: FnOnce(X) -> Result<Y, E> + Drop>(
        self,
        f: F,
    ) -> Result<Call<Y>, E>
        requires { F.IsAlwaysCallable f }
    {
        Ok(match self {
            Call::Width => Call::Width,
            Call::Reach => Call::Reach,
            Call::Reading => Call::Reading,
            Call::Take(sample) => Call::Take(f(sample)?),
            Call::Set { reference, delay } => Call::Set { reference, delay },
            Call::Stop => Call::Stop,
            Call::Claim => Call::Claim,
            Call::Hold => Call::Hold,
        })
    }
}

pub fn ask<A: Alarm>(alarm: &mut A, call: Call<A::Sample>) -> Result<Answer, Fault>
    ensures { Answers (A.Clock.meaning alarm.old) (A.Alarm.appointment alarm.old) call (told result) (A.Clock.meaning alarm.new) (A.Alarm.appointment alarm.new) }
{
    Ok(match call {
        Call::Width => AlarmAnswer::Width(alarm.width()).into(),
        Call::Reach => AlarmAnswer::Reach(alarm.reach()).into(),
        Call::Reading => AlarmAnswer::Reading(alarm.reading()).into(),
        Call::Take(sample) => AlarmAnswer::Took(alarm.take(sample)?).into(),
        Call::Set { reference, delay } => {
            alarm.set(reference, delay)?;
            AlarmAnswer::Set.into()
        }
        Call::Stop => AlarmAnswer::Stopped(alarm.stop()).into(),
        Call::Claim => AlarmAnswer::Claimed(alarm.claim()).into(),
        Call::Hold => Answer::Hold(alarm.hold()),
    })
}
