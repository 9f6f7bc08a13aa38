// What the writer and the receiver share of a header.
ghost use Rattle.std.specs.Prelude.{◌≡◌, length};
ghost use Rattle.mdu.specs.Frame.{length_ok, header_sum};

// Whether a body may be so long.
pub(crate) fn length_ok(count: usize) -> bool
    ensures { result ≡ length_ok count }
{
    (1..=1025).contains(&count)
}

// The header sum of the first five bytes.
#[tactic(auto, using(crate::proofs::Sum::sum_is))]
pub(crate) fn header_sum(five: &[u8]) -> u8
    requires { length five.now ≡ 5 }
    ensures { result ≡ header_sum five.now }
{
    runs::total(0, five)
}
