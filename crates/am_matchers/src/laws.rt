//! Laws of a matcher's text and of plain patterns that callers may cite.

ghost use Rattle.am_labels.specs.Letters.{LettersSpellTheText};
ghost use Rattle.am_matchers.specs.MatcherLaws.{EachTextIsSplit, HasOneSplit, HasOneValue};
ghost use Rattle.am_matchers.specs.MatcherLaws.{NoNameStandsAlone, NoOperatorStandsAlone};
ghost use Rattle.am_matchers.specs.MatcherLaws.{ReadsQuoted, TextIsOfOneMatcher};
ghost use Rattle.am_matchers.specs.PlainPatterns.{PlainGroupsAreChosen, PlainTextsAreChosen};

/// A text lacks its name or its operator, or has exactly one name, operator and way to write its
/// value. It means one value at most, so it is the text of one matcher at most. A value in quotes,
/// as label sets are printed, is read back.
pub fn matcher_grammar_laws()
    ensures split { HasOneSplit }
    ensures value { HasOneValue }
    ensures letters { LettersSpellTheText }
    ensures each { EachTextIsSplit }
    ensures no_name { NoNameStandsAlone }
    ensures no_operator { NoOperatorStandsAlone }
    ensures one_matcher { TextIsOfOneMatcher }
    ensures quoted { ReadsQuoted }
{}

/// A pattern of plain texts with `|` between them, as `web|api`, admits these texts and no others,
/// whatever else the grammar of patterns says. In a group, as `s2-(web|api)`, it admits each of them
/// with what is before and after the group.
pub fn plain_pattern_laws()
    ensures texts { PlainTextsAreChosen }
    ensures groups { PlainGroupsAreChosen }
{}
