ghost use Rattle.std.specs.Prelude.{◌≡◌, ◌/◌, ◌%◌, ◌^◌, ◌<◌};

/// The value of a word in the field of `width` bits whose lowest bit is `shift`.
pub fn field(word: u64, shift: u32, width: u32) -> u64
    requires shift { shift < 64 }
    requires width { width < 64 }
    ensures value { result ≡ word / 2 ^ shift % 2 ^ width }
    ensures below { result < 2 ^ width }
{
    (word >> shift) % (1 << width)
}
