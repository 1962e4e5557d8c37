//! Laws that tie the machine of the reading to the grammar.

ghost use Rattle.dn_parse.specs.Terms.{DeepIsFirst, DeepStops, ReadIsSpelled, RefusedIsFirst, ShallowIsRead, SpelledIsRead, StopIsFinal, StopKeepsStatements};

/// What is refused at a token, or is nested too deep there, is so whatever follows it.
pub fn stop_is_final()
    ensures { StopIsFinal }
{}

/// What is read to its end is a spelling of the statements that were read.
pub fn read_is_spelled()
    ensures { ReadIsSpelled }
{}

/// Each spelling is read as its statements, unless a parenthesis in it is nested too deep.
pub fn spelled_is_read()
    ensures { SpelledIsRead }
{}

/// Each spelling with at most 32 parentheses open at once is read as its statements.
pub fn shallow_is_read()
    ensures { ShallowIsRead }
{}

/// The place of a refusal is the first token that ends a list which is not viable, or the end of a
/// list that is viable and no spelling.
pub fn refused_is_first()
    ensures { RefusedIsFirst }
{}

/// The place of a nesting is a parenthesis that the grammar allows there and before which 32 are open.
pub fn deep_is_first()
    ensures { DeepIsFirst }
{}

/// The first 33rd parenthesis that a form allows stops the reading there.
pub fn deep_stops()
    ensures { DeepStops }
{}

/// Wherever the reading stops, the statements that were read are those that the tokens before the
/// last statement begun spell, and no `;` stands between them and that place.
pub fn stop_keeps_statements()
    ensures { StopKeepsStatements }
{}
