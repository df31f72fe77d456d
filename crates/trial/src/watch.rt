// The trial that is looked for, while a descent goes on, and where its line search stands.
ghost use Rattle.std.specs.Prelude.{◌≡◌};
ghost use Rattle.trial.specs.Watch.{begun_of, by_newest_of, noted_of};

use descent::Trial;

// By the newest trial: none, or it took its step; it took none; the evaluation limit cut it off.
#[derive(Clone, Copy, PartialEq, Eq)]
pub enum Since {
    Arrived,
    Missed,
    Cut,
}

// Counted down: `left` trials are to come, the one that is looked for with them; `kept` is that one once it was made.
#[derive(Clone, Copy)]
pub struct Watch {
    pub left: u64,
    pub kept: Option<Trial>,
    pub since: Since,
}

fn by_newest(t: Trial) -> Since
    ensures { result ≡ by_newest_of t }
{
    match t {
        Trial::ByDecrease(_) | Trial::ByRounding(_) => Since::Arrived,
        Trial::CutOff => Since::Cut,
        _ => Since::Missed,
    }
}

impl Watch {
    // For the trial of the number wanted, counted from 1; for none with 0.
    pub fn begun(wanted: u64) -> Watch
        ensures { result ≡ begun_of wanted }
    {
        Watch {
            left: wanted,
            kept: None,
            since: Since::Arrived,
        }
    }

    // Shown one more trial.
    #[tactic(auto, unfolding(crate::specs::Watch::noted_of))]
    pub fn noted(self, t: Trial) -> Watch
        ensures { result ≡ noted_of t self }
    {
        Watch {
            left: self.left.saturating_sub(1),
            kept: if self.left == 1 { Some(t) } else { self.kept },
            since: by_newest(t),
        }
    }
}
