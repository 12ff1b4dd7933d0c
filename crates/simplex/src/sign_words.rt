// Signs, and signs as words: 0 is plus, 1 is minus.
ghost use Rattle.std.specs.Prelude.{◌≡◌};
ghost use Rattle.simplex.specs.Cell.{times};
ghost use Rattle.simplex.specs.SignWords.{sign_word, turned_sign};

// The product of two signs.
pub fn product(s: bool, t: bool) -> bool
    ensures { result ≡ times s t }
{
    if s { t } else { !t }
}

pub fn sign_word(s: bool) -> u16
    ensures { result ≡ sign_word s }
{
    if s { 0 } else { 1 }
}

// The sign word turned over n times.
pub fn turned(w: u16, n: usize) -> u16
    ensures { result ≡ turned_sign w n }
{
    if n % 2 == 0 {
        if w == 0 {
            return 0;
        }
        return 1;
    }
    if w == 0 {
        return 1;
    }
    0
}
