// Refusals: why a call is refused, the numbers that docs/REQUIREMENTS.md gives them, their order, and the reply of
// a call that writes a path. Validates the texts of a call: questions 1 (at most 255 bytes) and 2 (a legal path).
#![tactic(auto)]

ghost use Rattle.std.specs.Prelude.{◌≡◌, leb, length, map};
ghost use Rattle.std.specs.List.{list_all};
ghost use Rattle.path_grammar.specs.Legal.{legal};
ghost use Rattle.refusal.specs.Refusal.{refusal_number, refusal_rank, validate_texts};

// Why a call is refused; specs/Refusal.antt defines the number (`refusal_number`) and the rank (`refusal_rank`) of each.
#[derive(Clone, Copy)]
pub enum Refusal {
    // 1: a text has more than 255 bytes.
    TooLong,
    // 2: a text is not a legal path.
    Illegal,
    // 3: an end is not a prim path, `/` or empty.
    NotAnEnd,
    // 4: a list has more than 64 pairs, or a route more than 16 legs.
    TooMany,
    // 5: a lent buffer is too short.
    NoRoom,
    // 6: the definition yields no path.
    NoPath,
    // 7: the resulting path has more than 255 bytes.
    MadeTooLong,
    // 8: the resulting path is not legal.
    MadeIllegal,
}

// The number of a refusal: that of the question that failed. No `From`: callers would read no plainer.
pub fn number_of(x: Refusal) -> usize
    ensures { result ≡ refusal_number x }
{
    match x {
        Refusal::TooLong => 1,
        Refusal::Illegal => 2,
        Refusal::NotAnEnd => 3,
        Refusal::TooMany => 4,
        Refusal::NoRoom => 5,
        Refusal::NoPath => 6,
        Refusal::MadeTooLong => 7,
        Refusal::MadeIllegal => 8,
    }
}

// The rank of a refusal: the position of its question in the order in which the questions are put.
// No derived order: that would be the order of the variants, and the ranks have a table of their own.
pub fn rank_of(x: Refusal) -> usize
    ensures { result ≡ refusal_rank x }
{
    match x {
        Refusal::TooLong => 10,
        Refusal::Illegal => 20,
        Refusal::NotAnEnd => 30,
        Refusal::TooMany => 40,
        Refusal::NoRoom => 50,
        Refusal::NoPath => 60,
        Refusal::MadeTooLong => 70,
        Refusal::MadeIllegal => 80,
    }
}

// Question 1: returns whether each text has at most 255 bytes.
#[inline(always)]
fn all_texts_short(texts: &[&[u8]]) -> bool
    ensures { result ≡ list_all (λ t. leb (length t.now) 255) texts.now }
{
    for text in texts {
        if 255 < text.len() {
            return false;
        }
    }
    true
}

// Question 2: returns whether each text is a legal path.
#[inline(always)]
fn all_texts_legal(texts: &[&[u8]]) -> bool
    ensures { result ≡ list_all (λ t. legal t.now) texts.now }
{
    for text in texts {
        if !path_grammar::is_legal(text) {
            return false;
        }
    }
    true
}

// Validates the texts of a call: question 1 for all of them, then question 2 for all of them. Inlined, and with `for`
// loops, so that the texts stay in registers: a call, or `iter().all(..)`, takes twice the instructions around the scans.
#[inline(always)]
pub fn validate_texts(texts: &[&[u8]]) -> Result<(), Refusal>
    ensures { result ≡ validate_texts (map (λ t. t.now) texts.now) }
{
    if !all_texts_short(texts) {
        return Err(Refusal::TooLong);
    }
    if !all_texts_legal(texts) {
        return Err(Refusal::Illegal);
    }
    Ok(())
}
