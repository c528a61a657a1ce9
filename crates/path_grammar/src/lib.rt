// The path grammar: validates path texts (the role of Path::new in the Rust sdf/path.rs, with a narrower
// grammar). The scan is a table-driven automaton that reads one byte at a time and keeps its state in
// the low six bits of a number. It reads a path's own part; the path in brackets is checked apart, and
// so are the characters outside ASCII, whose bytes the scan takes for bytes of names.
#![tactic(auto)]

ghost use Rattle.std.specs.Prelude.{◌≡◌, ◌&&◌, not, map, ◌/◌, ◌%◌, ◌^◌, leb};
ghost use Rattle.path_grammar.specs.Legal.{is_name_start_byte, is_name_byte, is_root, legal_own, legal_within, legal, is_end};
ghost use Rattle.text.specs.Text.{lacks_byte};
ghost use Rattle.text.specs.Bytes.{dot};
ghost use Rattle.path_grammar.specs.InnerText.{inner_text};
ghost use Rattle.path_grammar.specs.PackedScan.{packed_steps, end_byte, scan_code};

// The transition table: the next state of every state at the byte `a`, six bits for each. A match whose
// arms are single values compiles to a table in read-only memory, whereas a const array is built anew at
// each use. Adjacent values in one arm would become range tests, so odd and even values are in separate
// arms. The letters are the default, so that the first and the last value of the table are listed: then
// no test is needed whether a byte is in the table.
fn row(a: u8) -> u64
    ensures { result ≡ packed_steps a }
{
    match a {
        48 | 50 | 52 | 54 | 56 => 988164805558324608,
        49 | 51 | 53 | 55 | 57 => 988164805558324608,
        46 => 988218432520154160,
        47 => 988218432520154514,
        58 => 988218432520129974,
        61 => 988218413192801718,
        123 => 988218432520152600,
        125 => 988007326287621558,
        0 | 2 | 4 | 6 | 8 | 10 | 12 | 14 | 16 | 18 | 20 => 988218432520154550,
        22 | 24 | 26 | 28 | 30 | 32 | 34 | 36 | 38 | 40 | 42 => 988218432520154550,
        44 | 60 | 62 | 64 | 92 | 94 | 96 | 124 | 126 => 988218432520154550,
        1 | 3 | 5 | 7 | 9 | 11 | 13 | 15 | 17 | 19 | 21 => 988218432520154550,
        23 | 25 | 27 | 29 | 31 | 33 | 35 | 37 | 39 | 41 | 43 => 988218432520154550,
        45 | 59 | 63 | 91 | 93 | 127 => 988218432520154550,
        128 | 130 | 132 | 134 | 136 | 138 | 140 | 142 | 144 | 146 | 148 => 976396457311518720,
        150 | 152 | 154 | 156 | 158 | 160 | 162 | 164 | 166 | 168 | 170 => 976396457311518720,
        172 | 174 | 176 | 178 | 180 | 182 | 184 | 186 | 188 | 190 | 192 => 976396457311518720,
        194 | 196 | 198 | 200 | 202 | 204 | 206 | 208 | 210 | 212 | 214 => 976396457311518720,
        216 | 218 | 220 | 222 | 224 | 226 | 228 | 230 | 232 | 234 | 236 => 976396457311518720,
        238 | 240 | 242 | 244 | 246 | 248 | 250 | 252 | 254 => 976396457311518720,
        129 | 131 | 133 | 135 | 137 | 139 | 141 | 143 | 145 | 147 | 149 => 976396457311518720,
        151 | 153 | 155 | 157 | 159 | 161 | 163 | 165 | 167 | 169 | 171 => 976396457311518720,
        173 | 175 | 177 | 179 | 181 | 183 | 185 | 187 | 189 | 191 | 193 => 976396457311518720,
        195 | 197 | 199 | 201 | 203 | 205 | 207 | 209 | 211 | 213 | 215 => 976396457311518720,
        217 | 219 | 221 | 223 | 225 | 227 | 229 | 231 | 233 | 235 | 237 => 976396457311518720,
        239 | 241 | 243 | 245 | 247 | 249 | 251 | 253 | 255 => 976396457311518720,
        _ => 976342856119664640,
    }
}

// The state after state `s` and byte `a`; only the low six bits count.
fn next(s: u64, a: u8) -> u64
    ensures { result ≡ packed_steps a / 2 ^ (s % 64) }
{
    row(a) >> (s % 64)
}

// Returns 0 if the automaton refuses the text, 1 if it accepts it and every byte is one of ASCII, and
// otherwise 2. This function passes its text to no other, so that it takes the text in registers.
fn scan(p: &[u8]) -> u8
    ensures { result ≡ scan_code p.now p.now }
{
    if p.len() == 0 {
        return 1;
    }
    if p[0] != b'/' {
        return 0;
    }
    if p.len() == 1 {
        return 1;
    }
    let mut s = 18;
    let mut seen = 0;
    let mut i = 1;
    while i < p.len() {
        s = next(s, p[i]);
        seen = seen | p[i];
        i += 1;
    }
    if 18 <= s % 64 {
        return 0;
    }
    if seen < 128 {
        return 1;
    }
    2
}

// Returns whether the text is a legal path without brackets.
fn is_legal_own(p: &[u8]) -> bool
    ensures { result ≡ legal_own p.now }
{
    let code = scan(p);
    if code == 1 {
        return true;
    }
    if code == 0 {
        return false;
    }
    characters::characters_allowed(p)
}

// Returns whether the text is a legal path without brackets that has a property, which a target may
// follow.
fn is_legal_property(p: &[u8]) -> bool
    ensures { result ≡ (legal_own p.now && not (lacks_byte dot p.now)) }
{
    if !is_legal_own(p) {
        return false;
    }
    !text::lacks_byte(p, b'.')
}

// Returns the text in the brackets of a path whose own part is legal and has a property; empty if there is
// no such text. Only a text that ends in `]` can have brackets, so the last byte is tested first.
fn inner_text(p: &[u8]) -> &[u8]
    ensures { result.now ≡ inner_text p.now }
{
    if !text::last_is(p, b']') {
        return &p[..0];
    }
    let m = text::find_byte(p, b'[');
    if p.len() - m <= 1 {
        return &p[..0];
    }
    if !is_legal_property(&p[..m]) {
        return &p[..0];
    }
    &p[m + 1..p.len() - 1]
}

// Returns whether the text is a legal path with at most `depth` opening brackets: asks the same of the text in
// the brackets, with the remaining depth falling.
fn is_legal_within(p: &[u8], depth: usize) -> bool
    ensures { result ≡ legal_within depth p.now }
{
    let inner = inner_text(p);
    if inner.len() == 0 {
        return is_legal_own(p);
    }
    if depth == 0 {
        return false;
    }
    is_legal_within(inner, depth - 1)
}

// Returns whether the text is a legal path, regardless of its length. A text that does not end in `]` has no
// brackets. The last lines are those of `is_legal_own`: a call of it would take the text from memory.
pub fn is_legal(p: &[u8]) -> bool
    ensures { result ≡ legal p.now }
{
    if p.len() == 0 {
        return true;
    }
    if text::last_is(p, b']') {
        return is_legal_within(p, 4);
    }
    let code = scan(p);
    if code == 1 {
        return true;
    }
    if code == 0 {
        return false;
    }
    characters::characters_allowed(p)
}

// Like `row`, but treats `.` and `{` as bytes that no path contains.
fn end_row(a: u8) -> u64
    ensures { result ≡ packed_steps (end_byte a) }
{
    match a {
        48 | 50 | 52 | 54 | 56 => 988164805558324608,
        49 | 51 | 53 | 55 | 57 => 988164805558324608,
        46 => 988218432520154550,
        47 => 988218432520154514,
        58 => 988218432520129974,
        61 => 988218413192801718,
        123 => 988218432520154550,
        125 => 988007326287621558,
        0 | 2 | 4 | 6 | 8 | 10 | 12 | 14 | 16 | 18 | 20 => 988218432520154550,
        22 | 24 | 26 | 28 | 30 | 32 | 34 | 36 | 38 | 40 | 42 => 988218432520154550,
        44 | 60 | 62 | 64 | 92 | 94 | 96 | 124 | 126 => 988218432520154550,
        1 | 3 | 5 | 7 | 9 | 11 | 13 | 15 | 17 | 19 | 21 => 988218432520154550,
        23 | 25 | 27 | 29 | 31 | 33 | 35 | 37 | 39 | 41 | 43 => 988218432520154550,
        45 | 59 | 63 | 91 | 93 | 127 => 988218432520154550,
        128 | 130 | 132 | 134 | 136 | 138 | 140 | 142 | 144 | 146 => 976396457311518720,
        148 | 150 | 152 | 154 | 156 | 158 | 160 | 162 | 164 | 166 => 976396457311518720,
        168 | 170 | 172 | 174 | 176 | 178 | 180 | 182 | 184 | 186 => 976396457311518720,
        188 | 190 | 192 | 194 | 196 | 198 | 200 | 202 | 204 | 206 => 976396457311518720,
        208 | 210 | 212 | 214 | 216 | 218 | 220 | 222 | 224 | 226 => 976396457311518720,
        228 | 230 | 232 | 234 | 236 | 238 | 240 | 242 | 244 | 246 => 976396457311518720,
        248 | 250 | 252 | 254 => 976396457311518720,
        129 | 131 | 133 | 135 | 137 | 139 | 141 | 143 | 145 | 147 => 976396457311518720,
        149 | 151 | 153 | 155 | 157 | 159 | 161 | 163 | 165 | 167 => 976396457311518720,
        169 | 171 | 173 | 175 | 177 | 179 | 181 | 183 | 185 | 187 => 976396457311518720,
        189 | 191 | 193 | 195 | 197 | 199 | 201 | 203 | 205 | 207 => 976396457311518720,
        209 | 211 | 213 | 215 | 217 | 219 | 221 | 223 | 225 | 227 => 976396457311518720,
        229 | 231 | 233 | 235 | 237 | 239 | 241 | 243 | 245 | 247 => 976396457311518720,
        249 | 251 | 253 | 255 => 976396457311518720,
        _ => 976342856119664640,
    }
}

// Like `next`, with `end_row`.
fn next_in_end(s: u64, a: u8) -> u64
    ensures { result ≡ packed_steps (end_byte a) / 2 ^ (s % 64) }
{
    end_row(a) >> (s % 64)
}

// Like `scan`, with `end_row`.
fn scan_end(p: &[u8]) -> u8
    ensures { result ≡ scan_code (map end_byte p.now) p.now }
{
    if p.len() == 0 {
        return 1;
    }
    if p[0] != b'/' {
        return 0;
    }
    if p.len() == 1 {
        return 1;
    }
    let mut state = 18;
    let mut seen = 0;
    let mut i = 1;
    while i < p.len() {
        state = next_in_end(state, p[i]);
        seen = seen | p[i];
        i += 1;
    }
    if 18 <= state % 64 {
        return 0;
    }
    if seen < 128 {
        return 1;
    }
    2
}

// Like `is_end`, for a text that is no end of ASCII: refused, or one whose characters are checked. That it scans
// the text again keeps the compiler from merging `scan_end` into `is_end`, where it would take the text from
// memory.
fn is_end_wide(p: &[u8]) -> bool
    ensures { result ≡ is_end p.now }
{
    let code = scan_end(p);
    if code == 0 {
        return false;
    }
    characters::characters_allowed(p)
}

// Returns whether the text is a prim path, `/` or empty, regardless of its length.
pub fn is_end(p: &[u8]) -> bool
    ensures { result ≡ is_end p.now }
{
    let code = scan_end(p);
    if code == 1 {
        return true;
    }
    is_end_wide(p)
}

// Returns whether the text is `/`.
pub fn is_root(p: &[u8]) -> bool
    ensures { result ≡ is_root p.now }
{
    if p.len() != 1 {
        return false;
    }
    p[0] == b'/'
}

// Returns whether `a` lies between `low` and `high`, both included.
fn is_between(low: u8, a: u8, high: u8) -> bool
    ensures { result ≡ (leb low a && leb a high) }
{
    (low <= a) & (a <= high)
}

// Returns whether the byte may begin a name.
fn is_name_start_byte(a: u8) -> bool
    ensures { result ≡ is_name_start_byte a }
{
    is_between(b'A', a, b'Z') | is_between(b'a', a, b'z') | (a == b'_') | (128 <= a)
}

// Returns whether the byte may be part of a name.
pub fn is_name_byte(a: u8) -> bool
    ensures { result ≡ is_name_byte a }
{
    is_name_start_byte(a) | is_between(b'0', a, b'9')
}
