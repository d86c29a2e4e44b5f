ghost use Rattle.std.specs.Prelude.{◌≡◌};
ghost use Rattle.text_words.specs.Text.{starts_with_byte};
ghost use Rattle.text_words.specs.JunosWords.{is_dropped, is_gap, is_plain, slash_sort, sort_at};

/// What ends a statement: `;`, `{` or `}`.
#[derive(Clone, Copy, Debug, PartialEq, Eq)]
pub(crate) enum Mark {
    Semi,
    Open,
    Close,
}

/// What a byte is outside quotes and comments: a blank or a line end, the quote that opens a quoted
/// word, the start of a comment of either kind, a bracket, what ends a statement, or a byte of a word.
#[derive(Clone, Copy, Debug, PartialEq, Eq)]
pub(crate) enum Sort {
    Gap,
    Quote,
    LineComment,
    Comment,
    Bracket,
    Ends(Mark),
    Plain,
}

impl Sort {
    /// Whether it is a byte of a word.
    pub(crate) fn is_plain(self) -> bool
        ensures { result ≡ is_plain self }
    {
        match self {
            Sort::Plain => true,
            _ => false,
        }
    }
}

/// What a byte is before the bytes behind it.
#[tactic(auto, unfolding(crate::specs::JunosWords::sort_at))]
pub(crate) fn sort_at(byte: u8, behind: &[u8]) -> Sort
    ensures { result ≡ sort_at byte behind.now }
{
    if is_gap(byte, behind) {
        return Sort::Gap;
    }
    match byte {
        b'"' => Sort::Quote,
        b'#' => Sort::LineComment,
        b'[' => Sort::Bracket,
        b']' => Sort::Bracket,
        b';' => Sort::Ends(Mark::Semi),
        b'{' => Sort::Ends(Mark::Open),
        b'}' => Sort::Ends(Mark::Close),
        b'/' => slash_sort(behind),
        _ => Sort::Plain,
    }
}

fn slash_sort(behind: &[u8]) -> Sort
    ensures { result ≡ slash_sort behind.now }
{
    if starts_with(b'*', behind) {
        return Sort::Comment;
    }
    Sort::Plain
}

fn is_gap(byte: u8, behind: &[u8]) -> bool
    ensures { result ≡ is_gap byte behind.now }
{
    byte == b' ' || byte == b'\t' || byte == b'\n' || is_dropped(byte, behind)
}

/// Whether a byte is a CR right before an LF.
pub(crate) fn is_dropped(byte: u8, behind: &[u8]) -> bool
    ensures { result ≡ is_dropped byte behind.now }
{
    byte == b'\r' && starts_with(b'\n', behind)
}

fn starts_with(byte: u8, text: &[u8]) -> bool
    ensures { result ≡ starts_with_byte byte text.now }
{
    match text {
        [first, ..] => *first == byte,
        [] => false,
    }
}
