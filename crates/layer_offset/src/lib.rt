// Time offsets between layers. Ports LayerOffset of the Rust sdf/mod.rs, except the functions that need
// a Value. Every function is total: none has a precondition.
#![tactic(auto)]

ghost use Rattle.std.specs.Prelude.{◌≡◌};
ghost use Rattle.layer_offset.specs.Offset.{layer_offset, is_identity, is_valid, is_valid_composition, sanitized, apply_offset, concatenate_offsets, inverse_offset, offset_bits, is_near, is_close};
ghost use Rattle.layer_offset.specs.Number.{plus_zero};

mod number;

// A time offset: maps a time in a layer to offset + scale * time.
#[derive(Clone, Copy)]
pub struct LayerOffset {
    pub offset: f64,
    pub scale: f64,
}

// The bit patterns of an offset and a scale.
#[derive(Clone, Copy, PartialEq, Eq)]
pub struct OffsetBits(pub u64, pub u64);

impl LayerOffset {
    // The identity: offset 0, scale 1.
    pub const IDENTITY: LayerOffset = LayerOffset {
        offset: 0.0,
        scale: 1.0,
    };

    // Returns the time offset with these two numbers.
    pub fn new(offset: f64, scale: f64) -> Self
        ensures { result ≡ layer_offset offset scale }
    {
        Self { offset, scale }
    }

    // Returns a time offset that scales without shifting.
    pub fn scale_only(scale: f64) -> Self
        ensures { result ≡ layer_offset plus_zero scale }
    {
        Self { offset: 0.0, scale }
    }

    // Returns whether both numbers are finite.
    pub fn is_valid(self) -> bool
        ensures { result ≡ is_valid self }
    {
        self.offset.is_finite() && self.scale.is_finite()
    }

    // Returns whether this is (0, 1); -0.0 counts as 0.0.
    pub fn is_identity(self) -> bool
        ensures { result ≡ is_identity self }
    {
        self.offset == 0.0 && self.scale == 1.0
    }

    // Returns whether both are valid and within 1e-6 of each other in both numbers, or both are invalid
    // with the same bits.
    pub fn is_close(self, other: LayerOffset) -> bool
        ensures { result ≡ is_close self other }
    {
        if self.is_valid() {
            return other.is_valid() && self.is_near(other);
        }
        !other.is_valid() && self.to_bits() == other.to_bits()
    }

    // Returns whether both numbers are within 1e-6 of the other's.
    fn is_near(self, other: LayerOffset) -> bool
        ensures { result ≡ is_near self other }
    {
        number::is_small(self.offset - other.offset) && number::is_small(self.scale - other.scale)
    }

    // Returns the bits of both numbers; for every NaN, 0x7ff8_0000_0000_0000.
    pub fn to_bits(self) -> OffsetBits
        ensures { result ≡ offset_bits self }
    {
        OffsetBits(number::pattern(self.offset), number::pattern(self.scale))
    }

    // Maps a time to offset + scale * time.
    pub fn apply(self, time: f64) -> f64
        ensures { result ≡ apply_offset self time }
    {
        self.offset + self.scale * time
    }

    // Returns the inverse; the identity if the scale is zero.
    pub fn inverse(self) -> LayerOffset
        ensures { result ≡ inverse_offset self }
    {
        if self.scale == 0.0 {
            return LayerOffset::IDENTITY;
        }
        LayerOffset {
            offset: -self.offset / self.scale,
            scale: 1.0 / self.scale,
        }
    }

    // Returns whether this can be composed: it is valid and its scale is above zero.
    pub fn is_valid_composition(self) -> bool
        ensures { result ≡ is_valid_composition self }
    {
        self.is_valid() && self.scale > 0.0
    }

    // Returns this time offset, or the identity if it cannot be composed.
    pub fn sanitized(self) -> Self
        ensures { result ≡ sanitized self }
    {
        if self.is_valid_composition() {
            self
        } else {
            Self::IDENTITY
        }
    }

    // Returns the concatenation of this time offset, the outer one, with `inner`, which is applied
    // first.
    pub fn concatenate(self, inner: LayerOffset) -> LayerOffset
        ensures { result ≡ concatenate_offsets self inner }
    {
        LayerOffset {
            offset: self.offset + self.scale * inner.offset,
            scale: self.scale * inner.scale,
        }
    }
}
