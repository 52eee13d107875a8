//! Laws of codes, as functions that do nothing: their contracts are the laws.
ghost use Rattle.std.specs.Prelude.{◌≡◌, true};
ghost use Rattle.std.specs.List.{list_any};
ghost use Rattle.cpi_codes.specs.CodeText.{code_text, is_code_at_or_below};
ghost use Rattle.cpi_codes.specs.CodeOrder.{is_same_code};
ghost use Rattle.cpi_codes.specs.CodePath.{path};
ghost use Rattle.cpi_codes.specs.declared.codes.Code.{Code};

/// A law: codes with one text are one code.
pub fn one_text_one_code()
    ensures { (c d : Code) → code_text c ≡ code_text d → c ≡ d }
{}

/// A law: what a code is at or below is among the codes from `00` down to the code.
pub fn nodes_are_on_the_path()
    ensures { (node code : Code) → is_code_at_or_below node code ≡ true → list_any (is_same_code node)
        (path code) ≡ true }
{}
