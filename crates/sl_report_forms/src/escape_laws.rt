//! The laws of escaped texts, and of cut ones. Each function does nothing: its contract is the law.

ghost use Rattle.std.specs.Prelude.{◌≡◌, ℕ, List, None, false, map};
ghost use Rattle.std.specs.List.{list_any};
ghost use Rattle.sl_report_forms.specs.HtmlForm.{html_escaped, is_markup, read_entities};
ghost use Rattle.sl_report_forms.specs.MarkdownForm.{markdown_escaped, on_one_line, read_after};
ghost use Rattle.sl_report_forms.specs.TextForm.{IsLongestBegin, begin_under};

/// A reader that drops each backslash and keeps what follows it gives the text that was escaped for Markdown, on one line.
pub fn markdown_reads_back()
    ensures { (text : List ℕ) → read_after false (markdown_escaped text) ≡ map on_one_line text }
{}

/// A text that is escaped for HTML has no `<`, `>` or quotation mark, so it neither opens a tag nor ends a value.
pub fn html_has_no_markup()
    ensures { (text : List ℕ) → list_any is_markup (html_escaped text) ≡ false }
{}

/// A reader of the four entities gives the text that was escaped for HTML.
pub fn html_reads_back()
    ensures { (text : List ℕ) → read_entities None (html_escaped text) ≡ text }
{}

/// What stays of a text that is cut is its longest begin that takes fewer columns than its column has, where each character counts by itself.
pub fn cut_is_longest()
    ensures { (most : ℕ) (characters : List ℕ) → IsLongestBegin most characters (begin_under most characters) }
{}
