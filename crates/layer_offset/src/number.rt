// Functions on one f64.
ghost use Rattle.std.specs.Prelude.{◌≡◌};
ghost use Rattle.layer_offset.specs.Number as spec;

// The distance below which two valid time offsets are close.
const TOLERANCE: f64 = 1e-6;

// Returns whether the number is closer to zero than the tolerance.
pub fn is_small(x: f64) -> bool
    ensures { result ≡ spec.is_small x }
{
    x.abs() < TOLERANCE
}

// Returns the bits of the number; one fixed pattern for every NaN, because the bits of a NaN are left
// open.
pub fn pattern(x: f64) -> u64
    ensures { result ≡ spec.bit_pattern x }
{
    if x.is_nan() {
        return 0x7ff8_0000_0000_0000;
    }
    x.to_bits()
}
