ghost use Rattle.std.specs.Prelude.{◌≡◌, ◌≢◌, ◌<◌, [], option_map};
ghost use Rattle.peslumok_texts.specs.words.Cut as spec;

/// A text up to the first of a character, and what stands after that.
pub(crate) fn cut(text: &str, delimiter: char) -> (&str, Option<&str>)
    requires { delimiter < 128 }
    ensures { (result.0.now, option_map (λ rest. rest.now) result.1) ≡ spec.cut delimiter text.now }
{
    match text.split_once(delimiter) {
        Some((front, rest)) => (front, Some(rest)),
        None => (text, None),
    }
}

/// A text up to the first of a word, and what stands after that.
pub(crate) fn cut_at<'a>(text: &'a str, word: &str) -> (&'a str, Option<&'a str>)
    requires { word.now ≢ [] }
    ensures { (result.0.now, option_map (λ rest. rest.now) result.1)
        ≡ spec.cut_at word.now text.now }
{
    match text.split_once(word) {
        Some((front, rest)) => (front, Some(rest)),
        None => (text, None),
    }
}
