ghost use Rattle.calls.specs.Calls.{LetterRead};

use text::unread::Unread;

// What a call's letter names.
#[derive(Clone, Copy, PartialEq, Eq, Debug)]
pub enum Letter {
    Create,
    Start,
    Finish,
    Wait,
    Resume,
    Release,
    Read,
    Write,
    Update,
    Look,
    Ready,
}

// What the letter names, where it names something.
impl TryFrom<char> for Letter {
    type Error = Unread;

    ghost try_from_gives = { LetterRead };

    fn try_from(c: char) -> Result<Letter, Unread> {
        match c {
            'n' => Ok(Letter::Create),
            's' => Ok(Letter::Start),
            'f' => Ok(Letter::Finish),
            'w' => Ok(Letter::Wait),
            'c' => Ok(Letter::Resume),
            'r' => Ok(Letter::Release),
            'g' => Ok(Letter::Read),
            'p' => Ok(Letter::Write),
            'u' => Ok(Letter::Update),
            'l' => Ok(Letter::Look),
            'q' => Ok(Letter::Ready),
            _ => Err(Unread::UnknownLetter),
        }
    }
}
