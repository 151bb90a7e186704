// That a refusal prints itself. The bytes are written by hand, with the numbers of documents 01 and 02.
use super::Refusal;
use std::fmt::InlineText;

#[test]
fn prints_its_number(rt: HostRuntime) {
    for (refusal, text) in [
        (Refusal::BrokenPool, "refusal 1"),
        (Refusal::NoRoom, "refusal 19"),
        (Refusal::WrongStrip, "refusal 28"),
    ] {
        assert_eq!(rt; InlineText::<16>::of(refusal).as_str(), text);
    }
}
