// The laws: what holds of the calls for every input, said of their definitions alone. Each is the contract of a
// function with no parameters and an empty body: it costs nothing to call, and it is proved where this crate is
// checked, for all bytes, records and lengths at once. There is no code in which one could go wrong, so no wrong
// program belongs here; those are in the crates with the calls.
//
// This is the first file to open. What a single call promises stands on its contract, in `capi`; these laws say how
// answers hang together. Each has its statement, under the name of the function, in specs/Laws, over bytes: P is a
// list of pairs, D and E are dictionaries, c and d descriptions, s a specimen, and out an output before the call.
#![tactic(auto)]

ghost use Rattle.laws.specs.Laws.{BytesAndEntries, ExchangeOtherwise, ExchangeRefused, WrittenIsAccepted};
ghost use Rattle.laws.specs.Laws.{DeskExamples, NarrowestExamples, NarrowestHasRoom, NarrowestOfSheets, NarrowestSheetRead, RowsByNumber, RulesLeaveNothingOut, SevenLast, YesAndNo};
ghost use Rattle.laws.specs.Laws.{AsUnfolded, ContainedFits, EmptyListAsBefore, WithoutNames};
ghost use Rattle.laws.specs.Laws.{OneSetOfBytes, SameBytesContained, SameBytesExactly};

// [B10] [R27] What is written is read back, an accepted input is what its entries are written as, and every list of
// entries that no line refuses is accepted once written: nothing else is refused.
pub fn bytes_and_entries()
    ensures one_to_one { BytesAndEntries }
    ensures accepted { WrittenIsAccepted }
{}

// [B11] Two used entries of one block exchanged, p entries apart: the input is refused as 2 exactly where p times the
// difference of their word sums is no multiple of 16,384, and else not as 1, 2 or 3.
pub fn exchanged_entries()
    ensures refused { ExchangeRefused }
    ensures otherwise { ExchangeOtherwise }
{}

// [C16] The listed cases, all of them: answers, normal forms and every byte of the output; and their specimens fit
// the one description and not the other.
pub fn desk_examples()
    ensures { DeskExamples }
{}

// [N17] An accepted description whose entries ascend, and to which no rule applies, is its own normal form: the rules
// leave nothing out.
pub fn rules_leave_nothing_out()
    ensures { RulesLeaveNothingOut }
{}

// [N20] [N21] One meaning, one set of bytes: two accepted descriptions, each under its dictionary, have equal normal
// forms exactly where the same items fit both in every finite record that keeps the list; and under one dictionary
// exactly where each is contained in the other.
pub fn one_set_of_bytes()
    ensures exactly { SameBytesExactly }
    ensures accepted { OneSetOfBytes }
    ensures compared { SameBytesContained }
{}

// [W6] With no excluding pairs, the narrowest description of two field sheets is accepted as a field sheet, with the
// number answered, exactly where some item of some record that keeps the rule on single links fits at least one of
// them.
pub fn narrowest_of_sheets()
    ensures entries { NarrowestOfSheets }
    ensures calls { NarrowestSheetRead }
{}

// [G9] With no pairs an output as long as both inputs has room for the narrowest description that contains them.
pub fn narrowest_has_room()
    ensures { NarrowestHasRoom }
{}

// [G2] [G3] [G9] The examples of the narrowest description.
pub fn narrowest_examples()
    ensures { NarrowestExamples }
{}

// [C15] What fits a description fits every description that contains it.
pub fn contained_fits()
    ensures { ContainedFits }
{}

// [S11] With an empty list of pairs every answer and every byte is what it is without one.
pub fn empty_list_as_before()
    ensures { EmptyListAsBefore }
{}

// [D8] All answers and all bytes for descriptions with names are those for the plain descriptions that they stand
// for.
pub fn as_unfolded()
    ensures { AsUnfolded }
{}

// [D13] A description without names stands for itself, and is answered under any dictionary as without one.
pub fn without_names()
    ensures { WithoutNames }
{}

// [R7] 7 comes last: exactly where all inputs are accepted and the output is shorter than the call asks for. The fit
// answer never gives it.
pub fn seven_last()
    ensures { SevenLast }
{}

// [R8] [R12] [R13] [R14] Rows by the numbers that are returned: 8 for more than 64 descriptions, 12 at the lowest entry
// that completes a pair, 13 at a name that may not be given, 14 for what is too large once unfolded; each exactly then.
pub fn rows_by_number()
    ensures { RowsByNumber }
{}

// [K6] The numbers of the comparison's answers: yes and no have number 0, and a refusal is neither.
pub fn yes_and_no()
    ensures { YesAndNo }
{}
