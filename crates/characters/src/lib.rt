// Characters outside ASCII: validates UTF-8, and that each character is one that a name may have (the
// role of is_identifier_cont in the Rust sdf/path.rs). Every public function is defined for any bytes and
// has no precondition.
#![tactic(auto)]

ghost use Rattle.std.specs.Prelude.{◌≡◌, ◌&&◌, [], ◌∷◌, ◌<◌, ◌≤◌, ◌/◌, ◌%◌, ◌^◌, leb, length, get_or, drop};
ghost use Rattle.text.specs.Range.{in_range};
ghost use Rattle.characters.specs.Utf8.{is_continuation, with_bits};
ghost use Rattle.characters.specs.NameCharacter.{is_white_space, is_name_character, characters_allowed};
ghost use Rattle.characters.specs.CharacterLen.{character_len};
ghost use Rattle.characters.specs.FastScan.{fast_accepts, packed_fast_steps};

// Returns whether `n` lies between `low` and `high`, both included.
fn in_range(low: u32, high: u32, n: u32) -> bool
    ensures { result ≡ in_range low high n }
{
    (low <= n) & (n <= high)
}

// Returns whether the byte continues a character.
fn is_continuation(a: u8) -> bool
    ensures { result ≡ is_continuation a }
{
    (128 <= a) & (a <= 191)
}

// The number that the bits so far and the six bits of the byte make.
fn with_bits(bits: u32, a: u8) -> u32
    requires { bits < 65536 }
    ensures { result ≡ with_bits bits a }
{
    bits * 64 + (a % 64) as u32
}

// Returns whether the character is white space outside ASCII.
fn is_white_space(c: u32) -> bool
    ensures { result ≡ is_white_space c }
{
    (c == 0xA0)
        | (c == 0x1680)
        | in_range(0x2000, 0x200A, c)
        | (c == 0x2028)
        | (c == 0x2029)
        | (c == 0x202F)
        | (c == 0x205F)
        | (c == 0x3000)
}

// Returns whether the number is the code point of a character outside ASCII that a name may have.
fn is_name_character(c: u32) -> bool
    ensures { result ≡ is_name_character c }
{
    (c <= 0x10FFFF)
        & !in_range(0xD800, 0xDFFF, c)
        & (0x80 <= c)
        & !(in_range(0x80, 0x9F, c) | is_white_space(c))
}

// Returns whether these are the two bytes of a character that a name may have. The first byte says that
// there are two.
fn is_two_bytes(a: u8, b: u8) -> bool
    requires le_a { 192 ≤ a }
    requires a_bound { a ≤ 223 }
    ensures { result ≡ characters_allowed (a ∷ b ∷ []) }
{
    let c = with_bits((a % 32) as u32, b);
    is_continuation(b) & (0x80 <= c) & is_name_character(c)
}

// Returns whether these are the three bytes of a character that a name may have.
fn is_three_bytes(a: u8, b: u8, d: u8) -> bool
    requires le_a { 224 ≤ a }
    requires a_bound { a ≤ 239 }
    ensures { result ≡ characters_allowed (a ∷ b ∷ d ∷ []) }
{
    let c = with_bits(with_bits((a % 16) as u32, b), d);
    is_continuation(b) & is_continuation(d) & (0x800 <= c) & is_name_character(c)
}

// Returns whether these are the four bytes of a character that a name may have.
fn is_four_bytes(a: u8, b: u8, d: u8, e: u8) -> bool
    requires le_a { 240 ≤ a }
    requires a_bound { a ≤ 247 }
    ensures { result ≡ characters_allowed (a ∷ b ∷ d ∷ e ∷ []) }
{
    let c = with_bits(with_bits(with_bits((a % 8) as u32, b), d), e);
    is_continuation(b)
        & is_continuation(d)
        & is_continuation(e)
        & (0x10000 <= c)
        & is_name_character(c)
}

// The number of bytes of the character at index `i`, whose first byte says that there are three or more; 0 if
// there is none, or one that no name may have.
fn long_character_len(text: &[u8], i: usize) -> usize
    requires i_in_bounds { i < length text.now }
    requires bound { 224 ≤ get_or text.now i 0 }
    ensures { result ≡ character_len (drop i text.now) }
{
    let a = text[i];
    let n = text.len() - i;
    if a < 240 {
        if n < 3 {
            return 0;
        }
        if is_three_bytes(a, text[i + 1], text[i + 2]) {
            return 3;
        }
        return 0;
    }
    if 247 < a {
        return 0;
    }
    if n < 4 {
        return 0;
    }
    if is_four_bytes(a, text[i + 1], text[i + 2], text[i + 3]) {
        return 4;
    }
    0
}

// The number of bytes of the character at index `i`; 0 if there is none, or one that no name may have.
fn character_len(text: &[u8], i: usize) -> usize
    requires { i < length text.now }
    ensures { result ≡ character_len (drop i text.now) }
{
    let a = text[i];
    if a < 128 {
        return 1;
    }
    if a < 192 {
        return 0;
    }
    if 224 <= a {
        return long_character_len(text, i);
    }
    if text.len() - i < 2 {
        return 0;
    }
    if is_two_bytes(a, text[i + 1]) {
        return 2;
    }
    0
}

// The transition table of the first scan: the next state of every state at the byte `a`, as in the scan of
// paths (path_grammar).
fn fast_row(a: u8) -> u64
    ensures { result ≡ packed_fast_steps a }
{
    match a {
        128 => 109828494320714118,
        130 | 132 | 134 | 136 | 138 | 140 | 142 => 1082606013832741254,
        129 | 131 | 133 | 135 | 137 | 139 | 141 | 143 => 1082606013832741254,
        144 | 146 | 148 | 150 | 152 | 156 | 158 => 1082580037870535046,
        145 | 147 | 149 | 151 | 153 | 155 | 157 | 159 => 1082580037870535046,
        154 => 109802518358507910,
        160 => 1082579980794446214,
        162 | 164 | 166 | 168 | 170 | 172 | 174 | 176 | 178 | 180 => 1080891130934182278,
        182 | 184 | 186 | 188 | 190 => 1080891130934182278,
        161 | 163 | 165 | 167 | 169 | 171 | 173 | 175 | 177 | 179 => 1080891130934182278,
        181 | 183 | 185 | 187 | 189 | 191 => 1080891130934182278,
        192 | 226 | 246 | 248 | 250 | 252 | 254 => 7027331075698876806,
        127 | 193 | 245 | 247 | 249 | 251 | 253 | 255 => 7027331075698876806,
        194 => 7027331075698876848,
        196 | 198 | 200 | 202 | 204 | 206 | 208 | 210 | 212 | 214 => 7027331075698876860,
        216 | 218 | 220 | 222 => 7027331075698876860,
        195 | 197 | 199 | 201 | 203 | 205 | 207 | 209 | 211 | 213 => 7027331075698876860,
        215 | 217 | 219 | 221 | 223 => 7027331075698876860,
        224 => 7027331075698876824,
        225 | 227 => 7027331075698876854,
        228 | 230 | 232 | 234 | 236 | 238 => 7027331075698876812,
        229 | 231 | 233 | 235 | 239 => 7027331075698876812,
        237 => 7027331075698876830,
        240 => 7027331075698876836,
        242 => 7027331075698876818,
        241 | 243 => 7027331075698876818,
        244 => 7027331075698876842,
        _ => 7027331075698876800,
    }
}

// The state after state `s` and byte `a`; only the low six bits count.
fn fast_next(s: u64, a: u8) -> u64
    ensures { result ≡ packed_fast_steps a / 2 ^ (s % 64) }
{
    fast_row(a) >> (s % 64)
}

// Returns whether the first scan accepts the text.
fn fast_accepts(text: &[u8]) -> bool
    ensures { result ≡ fast_accepts text.now }
{
    let mut s = 0;
    let mut i = 0;
    while i < text.len() {
        s = fast_next(s, text[i]);
        i += 1;
    }
    s % 64 == 0
}

// Returns whether the text is well-formed UTF-8 and each of its characters outside ASCII is one that a
// name may have, by decoding it.
fn decodes_allowed(text: &[u8]) -> bool
    ensures { result ≡ characters_allowed text.now }
{
    // A `while`: each turn passes a character of one to four bytes.
    let mut i = 0;
    while i < text.len() {
        let n = character_len(text, i);
        if n == 0 {
            return false;
        }
        i += n;
    }
    true
}

// Returns whether the text is well-formed UTF-8 and each of its characters outside ASCII is one that a
// name may have. The first scan accepts most such texts, and is faster.
pub fn characters_allowed(text: &[u8]) -> bool
    ensures { result ≡ characters_allowed text.now }
{
    if fast_accepts(text) {
        return true;
    }
    decodes_allowed(text)
}
