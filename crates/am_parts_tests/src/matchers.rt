//! Matchers: what their texts are read as, what they admit, and that a call which was refused
//! memory can be made again.

use crate::expectation::expect;
use am_labels::LabelSet;
use am_matchers::{MatchFault, Matcher, Matchers, Operator, PreparedMatcher, PreparedMatchers};
use std::alloc::{AllocError, Global};
use std::test::Fail;

// Each call is made again where memory was refused, so the tests also pass with any one allocation
// refused.

fn read(alloc: Global, text: &str) -> Result<Matcher, MatchFault> {
    match Matcher::read(alloc, text) {
        Err(MatchFault::NoMemory) => Matcher::read(alloc, text),
        other => other,
    }
}

fn is_read(alloc: Global, text: &str, name: &str, operator: Operator, value: &str) -> bool {
    match read(alloc, text) {
        Ok(matcher) => {
            matcher.name() == name && matcher.operator() == operator && matcher.value() == value
        }
        Err(_) => false,
    }
}

fn is_refused(alloc: Global, text: &str, fault: MatchFault) -> bool {
    match read(alloc, text) {
        Ok(_) => false,
        Err(found) => found == fault,
    }
}

fn one_label(alloc: Global, name: &str, value: &str) -> Result<LabelSet, AllocError> {
    let mut pairs = Vec::new(alloc);
    pairs.push((
        String::from_str(alloc, name)?,
        String::from_str(alloc, value)?,
    ))?;
    LabelSet::from_pairs(alloc, pairs)
}

fn with_label(alloc: Global, name: &str, value: &str) -> Result<LabelSet, AllocError> {
    match one_label(alloc, name, value) {
        Err(AllocError) => one_label(alloc, name, value),
        other => other,
    }
}

// The one label `foo` with this value, or where it is empty no label at all.
fn labels_with(alloc: Global, value: &str) -> Result<LabelSet, AllocError> {
    if value.is_empty() {
        Ok(LabelSet::new())
    } else {
        with_label(alloc, "foo", value)
    }
}

fn answer_of(matcher: &mut Matcher, labels: &LabelSet) -> Result<bool, AllocError> {
    match matcher.admits(labels) {
        Err(AllocError) => matcher.admits(labels),
        other => other,
    }
}

fn prepared(matcher: &Matcher) -> Result<PreparedMatcher<'_>, AllocError> {
    match matcher.prepare() {
        Err(AllocError) => matcher.prepare(),
        other => other,
    }
}

fn stays_prepared(matcher: &Matcher, labels: &LabelSet, answer: bool) -> Result<bool, AllocError> {
    let mut prepared = prepared(matcher)?;
    Ok(stays(&mut prepared, labels, answer))
}

// Whether a matcher gives this answer, and prepared the same, also when it is asked again.
fn answers(matcher: &mut Matcher, labels: &LabelSet, answer: bool) -> Result<bool, AllocError> {
    Ok(answer_of(matcher, labels)? == answer && stays_prepared(matcher, labels, answer)?)
}

// Whether the matcher of a text gives this answer for that label.
fn is_answer(alloc: Global, text: &str, value: &str, answer: bool) -> Result<bool, Fail> {
    let labels = labels_with(alloc, value)?;
    let mut matcher = read(alloc, text)?;
    Ok(answers(&mut matcher, &labels, answer)?)
}

// Whether each text's matcher gives its answer for a value.
fn are_answers(alloc: Global, cases: &[(&'static str, &'static str, bool)]) -> Result<(), Fail> {
    for (text, value, answer) in cases {
        expect(is_answer(alloc, text, value, *answer)?, text)?;
    }
    Ok(())
}

// Whether a prepared matcher gives this answer, asked again and again.
fn stays(matcher: &mut PreparedMatcher<'_>, labels: &LabelSet, answer: bool) -> bool {
    for _ in 0..3 {
        if matcher.admits(labels) != answer {
            return false;
        }
    }
    true
}

#[test]
fn parts(rt: HostRuntime) {
    let alloc = rt.alloc();
    assert!(rt; is_read(alloc, "foo=bar", "foo", Operator::Equal, "bar"));
    assert!(rt;
        is_read(
            alloc,
            " foo != \"b\\\"r\" ",
            "foo",
            Operator::NotEqual,
            "b\"r"
        )
    );
    assert!(rt; is_read(alloc, "foo=~\"a|b\"", "foo", Operator::MatchRegexp, "a|b"));
    assert!(rt; is_read(alloc, "foo!~a", "foo", Operator::MatchNotRegexp, "a"));
    assert!(rt; is_read(alloc, "foo=", "foo", Operator::Equal, ""));
    assert!(rt; is_read(alloc, "foo= ~b", "foo", Operator::Equal, "~b"));
    assert!(rt; is_read(alloc, "_f:9==b", "_f:9", Operator::Equal, "=b"));
}

#[test]
fn values(rt: HostRuntime) {
    let alloc = rt.alloc();
    assert!(rt; is_read(alloc, "foo=\"a\\d\"", "foo", Operator::Equal, "a\\d"));
    assert!(rt; is_read(alloc, "foo=a\\nb", "foo", Operator::Equal, "a\nb"));
    assert!(rt; is_read(alloc, "foo=a\\", "foo", Operator::Equal, "a\\"));
    assert!(rt; is_read(alloc, "foo=\\\\n\\\"", "foo", Operator::Equal, "\\n\""));
    assert!(rt; is_read(alloc, "foo=\"a,b \"", "foo", Operator::Equal, "a,b "));
    assert!(rt; is_read(alloc, "foo=\\é{é}", "foo", Operator::Equal, "\\é{é}"));
}

#[test]
fn white_space(rt: HostRuntime) {
    let alloc = rt.alloc();
    let text = " \t\n\x0c\rfoo\r\x0c\n\t =\t \n\r\x0cbar baz\x0c\n \t\r";
    assert!(rt; is_read(alloc, text, "foo", Operator::Equal, "bar baz"));
    assert!(rt;
        is_read(
            alloc,
            "foo=\u{a0}bar\u{a0}",
            "foo",
            Operator::Equal,
            "\u{a0}bar\u{a0}"
        )
    );
    assert!(rt; is_refused(alloc, "\u{a0}foo=bar", MatchFault::BadName));
    assert!(rt; is_refused(alloc, "foo\u{a0}=bar", MatchFault::NoOperator));
    assert!(rt; is_refused(alloc, "foo\x0b=bar", MatchFault::NoOperator));
}

#[test]
fn no_name(rt: HostRuntime) {
    let alloc = rt.alloc();
    assert!(rt; is_refused(alloc, "", MatchFault::BadName));
    assert!(rt; is_refused(alloc, "\"foo\"=bar", MatchFault::BadName));
    assert!(rt; is_refused(alloc, "{a=b}", MatchFault::BadName));
    assert!(rt; is_refused(alloc, "9a=b", MatchFault::BadName));
}

#[test]
fn no_operator(rt: HostRuntime) {
    let alloc = rt.alloc();
    assert!(rt; is_refused(alloc, "foo", MatchFault::NoOperator));
    assert!(rt; is_refused(alloc, "foo bar", MatchFault::NoOperator));
    assert!(rt; is_refused(alloc, "foo~bar", MatchFault::NoOperator));
    assert!(rt; is_refused(alloc, "foo!bar", MatchFault::NoOperator));
    assert!(rt; is_refused(alloc, "foo.bar=baz", MatchFault::NoOperator));
}

#[test]
fn bad_quotes_and_patterns(rt: HostRuntime) {
    let alloc = rt.alloc();
    assert!(rt; is_refused(alloc, "foo=\"a", MatchFault::BadQuote));
    assert!(rt; is_refused(alloc, "foo=a\"b", MatchFault::BadQuote));
    assert!(rt; is_refused(alloc, "foo=a,b=c", MatchFault::BadQuote));
    assert!(rt; is_refused(alloc, "foo=\"a\",b=\"c\"", MatchFault::BadQuote));
    assert!(rt; is_refused(alloc, "a=b\\,c", MatchFault::BadQuote));
    assert!(rt; is_refused(alloc, "foo=\"a\\\"", MatchFault::BadQuote));
    assert!(rt; is_refused(alloc, "foo=~\"(\"", MatchFault::BadPattern));
    assert!(rt; is_refused(alloc, "foo!~*", MatchFault::BadPattern));
    assert!(rt; is_read(alloc, "foo!~a)(b", "foo", Operator::MatchNotRegexp, "a)(b"));
}

#[test]
fn texts_admitted(rt: HostRuntime) -> Result<(), Fail> {
    let cases = [
        ("foo=bar", "bar", true),
        ("foo=bar", "barr", false),
        ("foo=bar", "", false),
        ("foo=", "", true),
        ("foo!=bar", "bar", false),
        ("foo!=bar", "", true),
    ];
    are_answers(rt.alloc(), &cases)
}

#[test]
fn patterns_admitted(rt: HostRuntime) -> Result<(), Fail> {
    let cases = [
        ("foo=~\"a|b\"", "a", true),
        ("foo=~\"a|b\"", "b", true),
        ("foo=~\"a|b\"", "ab", false),
        ("foo=~a{2}", "aa", true),
        ("foo=~a{2}", "a", false),
        ("foo=~a*", "", true),
        ("foo=~a+", "", false),
        ("foo!~a+", "aa", false),
        ("foo!~a+", "aab", true),
        ("foo!~a+", "", true),
    ];
    are_answers(rt.alloc(), &cases)
}

// Of patterns that choose among a few texts, which are compared.
#[test]
fn choices_admitted(rt: HostRuntime) -> Result<(), Fail> {
    let cases = [
        ("foo=~\"web|api\"", "web", true),
        ("foo=~\"web|api\"", "api", true),
        ("foo=~\"web|api\"", "we", false),
        ("foo=~\"web|api\"", "webapi", false),
        ("foo=~\"web|api\"", "", false),
        ("foo!~\"web|api\"", "web", false),
        ("foo!~\"web|api\"", "db", true),
        ("foo!~\"web|api\"", "", true),
        ("foo=~\"s2-(web|api)\"", "s2-api", true),
        ("foo=~\"s2-(web|api)\"", "s2-", false),
        ("foo=~\"s2-(web|api)\"", "api", false),
        ("foo=~\"(?:web|api)-(?P<to>eu|us|)\"", "api-us", true),
        ("foo=~\"(?:web|api)-(?P<to>eu|us|)\"", "web-", true),
        ("foo=~\"(?:web|api)-(?P<to>eu|us|)\"", "us-web", false),
        ("foo=~\"web|webs\"", "webs", true),
        ("foo=~web", "web", true),
        ("foo=~web", "webs", false),
        ("foo=~\"\"", "", true),
        ("foo=~\"\"", "web", false),
        ("foo=~\"größe|höhe\"", "höhe", true),
        ("foo=~\"größe|höhe\"", "hohe", false),
    ];
    are_answers(rt.alloc(), &cases)
}

// Of patterns that nearly choose among a few texts, or among more.
#[test]
fn near_choices_admitted(rt: HostRuntime) -> Result<(), Fail> {
    let cases = [
        ("foo=~\"(?i)web|api\"", "WEB", true),
        ("foo=~\"w.b|api\"", "wib", true),
        ("foo=~\"web$|api\"", "web", true),
        ("foo=~\"web^|api\"", "web", false),
        ("foo=~\"(web){2}|api\"", "webweb", true),
        ("foo=~\"(ab|cd)(ab|cd)(ab|cd)(ab|cd)\"", "abcdcdab", true),
        ("foo=~\"(ab|cd)(ab|cd)(ab|cd)(ab|cd)\"", "abcdcdac", false),
        (
            "foo=~\"(ab|cd)(ab|cd)(ab|cd)(ab|cd)(ab|cd)\"",
            "abcdcdabcd",
            true,
        ),
        (
            "foo=~\"(ab|cd)(ab|cd)(ab|cd)(ab|cd)(ab|cd)\"",
            "abcdcdabce",
            false,
        ),
    ];
    are_answers(rt.alloc(), &cases)
}

// A text, and after it the letter a `letters` times.
fn with_letters(alloc: Global, text: &str, letters: u64) -> Result<String, AllocError> {
    let mut longer = String::from_str(alloc, text)?;
    for _ in 0..letters {
        longer.push('a')?;
    }
    Ok(longer)
}

fn letters_after(alloc: Global, text: &str, letters: u64) -> Result<String, AllocError> {
    match with_letters(alloc, text, letters) {
        Err(AllocError) => with_letters(alloc, text, letters),
        other => other,
    }
}

// Of a pattern of one text just as long as one that is compared, and of one that is a byte longer.
#[test]
fn long_choices_admitted(rt: HostRuntime) -> Result<(), Fail> {
    let alloc = rt.alloc();
    for letters in [1018, 1019] {
        let text = letters_after(alloc, "foo=~", letters)?;
        let value = letters_after(alloc, "", letters)?;
        let other = letters_after(alloc, "b", letters)?;
        expect(
            is_answer(alloc, text.as_str(), value.as_str(), true)?,
            "the text",
        )?;
        expect(
            is_answer(alloc, text.as_str(), other.as_str(), false)?,
            "a longer one",
        )?;
    }
    Ok(())
}

fn list(alloc: Global, texts: &[&str]) -> Result<Matchers, Fail> {
    let mut matchers = Vec::new(alloc);
    for text in texts {
        let matcher = read(alloc, text)?;
        if let Err(full) = matchers.push(matcher) {
            matchers.push(full.value)?;
        }
    }
    Ok(Matchers::new(matchers))
}

fn answer_of_all(matchers: &mut Matchers, labels: &LabelSet) -> Result<bool, AllocError> {
    match matchers.admits(labels) {
        Err(AllocError) => matchers.admits(labels),
        other => other,
    }
}

fn all_prepared(alloc: Global, matchers: &Matchers) -> Result<PreparedMatchers<'_>, AllocError> {
    match matchers.prepare(alloc) {
        Err(AllocError) => matchers.prepare(alloc),
        other => other,
    }
}

fn all_stay_prepared(
    alloc: Global,
    matchers: &Matchers,
    labels: &LabelSet,
    answer: bool,
) -> Result<bool, AllocError> {
    let mut prepared = all_prepared(alloc, matchers)?;
    Ok(all_stay(&mut prepared, labels, answer))
}

// Whether the matchers of these texts give this answer, and prepared the same.
fn all_answer(
    alloc: Global,
    texts: &[&str],
    labels: &LabelSet,
    answer: bool,
) -> Result<bool, Fail> {
    let mut matchers = list(alloc, texts)?;
    let found = answer_of_all(&mut matchers, labels)?;
    Ok(found == answer && all_stay_prepared(alloc, &matchers, labels, answer)?)
}

fn all_stay(matchers: &mut PreparedMatchers<'_>, labels: &LabelSet, answer: bool) -> bool {
    for _ in 0..3 {
        if matchers.admits(labels) != answer {
            return false;
        }
    }
    true
}

fn lists_answer(alloc: Global, labels: &LabelSet) -> Result<(), Fail> {
    expect(all_answer(alloc, &[], labels, true)?, "no matcher")?;
    expect(all_answer(alloc, &["foo=~b.r"], labels, true)?, "one")?;
    expect(
        all_answer(alloc, &["foo=bar", "a!~b"], labels, true)?,
        "both",
    )?;
    expect(
        all_answer(alloc, &["foo=bar", "a=b"], labels, false)?,
        "the first alone",
    )?;
    expect(
        all_answer(alloc, &["a=b", "foo=bar"], labels, false)?,
        "the second alone",
    )
}

#[test]
fn lists(rt: HostRuntime) -> Result<(), Fail> {
    let labels = with_label(rt.alloc(), "foo", "bar")?;
    lists_answer(rt.alloc(), &labels)
}
