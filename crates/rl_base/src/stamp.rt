//! Stamps, which put all commits in their serial order.

ghost use Rattle.std.specs.Prelude.{◌≡◌, ◌<◌, ◌^◌};
ghost use Rattle.rl_base.specs.Order.{is_below};
ghost use Rattle.rl_base.specs.Stamps.{packed};

/// An epoch, and a number drawn in it.
#[derive(Clone, Copy, Debug, PartialEq, Eq)]
pub struct Stamp {
    pub epoch: u32,
    pub seq: u64,
}

/// A stamp as one number. Numbers compare as stamps do: by epoch, then by seq.
pub fn pack(s: Stamp) -> u64
    requires epoch { s.epoch < 2 ^ 20 }
    requires seq { s.seq < 2 ^ 40 }
    ensures packed { result ≡ packed s }
    ensures small { result < 2 ^ 60 }
{
    u64::from(s.epoch) * (1 << 40) + s.seq
}

/// The stamp that a number stands for.
pub fn unpack(x: u64) -> Stamp
    requires { x < 2 ^ 60 }
    ensures packed { packed result ≡ x }
    ensures epoch { result.epoch < 2 ^ 20 }
    ensures seq { result.seq < 2 ^ 40 }
{
    Stamp {
        epoch: (x / (1 << 40)) as u32,
        seq: x % (1 << 40),
    }
}

/// Whether one stamp is below another: by epoch, then by seq.
pub fn is_below(s: Stamp, t: Stamp) -> bool
    ensures { result ≡ is_below s t }
{
    s.epoch < t.epoch || s.epoch == t.epoch && s.seq < t.seq
}
