//! Laws on span sets and normal rows, each on a function that does nothing.

ghost use Rattle.std.specs.Prelude.{◌≡◌, ◌-◌, ◌^◌};
ghost use Rattle.dn_interval.specs.declared.span.TheConstants.{TOP};
ghost use Rattle.dn_interval.specs.Terms.{ListedRowsAreNormal, NormalRowsAreListed, OneListOfRows, OneListOfSpans, RowsGoOn};

/// Two lists of maximal spans that have the same addresses are one list.
pub fn one_list_of_spans()
    ensures { OneListOfSpans }
{}

/// Two lists of rows that are normal for one function are one list.
pub fn one_list_of_rows()
    ensures { OneListOfRows }
{}

/// Rows that are normal for a function are the list that is made address by address.
pub fn normal_rows_are_listed()
    ensures { NormalRowsAreListed }
{}

/// The list that is made address by address is normal: its rows stand apart, and give to every address
/// exactly its names.
pub fn listed_rows_are_normal()
    ensures { ListedRowsAreNormal }
{}

/// Rows go on to a name exactly where one of the names that they give does.
pub fn rows_go_on()
    ensures { RowsGoOn }
{}

/// The last address is 2^56 - 1.
pub fn last_address()
    ensures { TOP ≡ 2 ^ 56 - 1 }
{}
