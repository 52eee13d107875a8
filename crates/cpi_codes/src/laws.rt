//! Laws of the texts that are read.
ghost use Rattle.cpi_codes.specs.Laws.{ItemCodesAreInByteOrder, ItemCodesHaveOneSpelling, KeysHaveOneSpelling};
ghost use Rattle.cpi_codes.specs.Laws.{MonthsAreReadAgain, MonthsHaveOneSpelling, NumbersAreReadAgain};
ghost use Rattle.cpi_codes.specs.Laws.{NumbersHaveOneSpelling};

/// A law: the decimal text of a number in range is read as that number.
pub fn numbers_are_read_again()
    ensures { NumbersAreReadAgain }
{}

/// A law: a text that is read as a number is the number's decimal text.
pub fn numbers_have_one_spelling()
    ensures { NumbersHaveOneSpelling }
{}

/// A law: the text of a month is read as that month.
pub fn months_are_read_again()
    ensures { MonthsAreReadAgain }
{}

/// A law: a text that is read as a month is the month's text.
pub fn months_have_one_spelling()
    ensures { MonthsHaveOneSpelling }
{}

/// A law: two texts of one key are one text.
pub fn keys_have_one_spelling()
    ensures { KeysHaveOneSpelling }
{}

/// A law: two texts of one item code are one text.
pub fn item_codes_have_one_spelling()
    ensures { ItemCodesHaveOneSpelling }
{}

/// A law: item codes stand in the byte order of their texts.
pub fn item_codes_are_in_byte_order()
    ensures { ItemCodesAreInByteOrder }
{}
