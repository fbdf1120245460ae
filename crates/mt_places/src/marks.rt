//! What is told of 64 places at once.

ghost use Rattle.std.specs.Prelude.{◌≡◌, ℕ, ◌<◌, ◌≤◌, ◌^◌, ◌-◌};
ghost use Rattle.mt_places.specs.Places.{WordIs};

/// Marks that stand at places.
pub trait Marks {
    ghost stands: { Self → ℕ → Type 0 };

    /// At which of the 64 places from 64 * at on a mark stands, the lowest bit first.
    fn word(&self, at: usize) -> u64
        ensures { WordIs (stands self.now) at result };
}

/// The places below a number.
#[derive(Clone, Copy, Debug, Drop)]
pub struct Below {
    pub end: u32,
}

impl Marks for Below {
    ghost use Rattle.std.specs.Prelude.{◌<◌};

    ghost stands = { λ b place. place < b.end };

    fn word(&self, at: usize) -> u64 {
        let full = (self.end / 64) as usize;
        if at < full {
            return u64::MAX;
        }
        if at > full {
            return 0;
        }
        ones(self.end % 64)
    }
}

/// The lowest bits of a word, so many.
fn ones(count: u32) -> u64
    requires { count < 64 }
    ensures { result ≡ 2 ^ count - 1 }
{
    (1 << count) - 1
}
