//! What is printed is read again. Each law is the contract of a function that does nothing.
ghost use Rattle.std.specs.Prelude.{◌≡◌, ◌+◌, ◌^◌, ◌<◌, ◌≤◌, ℕ, List, [], ◌∷◌, ◌++◌, Bool, true, false, Result, Ok, map, fold, flat_map, decimal, length};
ghost use Rattle.std.specs.List.{AllByRecursion, list_any};
ghost use Rattle.std.specs.Str.Lines.{lines};
ghost use Rattle.sk_ids.specs.Pid.{IsPath};
ghost use Rattle.sk_words.specs.declared.fault.FaultKind.{FaultKind};
ghost use Rattle.sk_words.specs.Words.{words, is_open};
ghost use Rattle.sk_words.specs.Literals.{literal};
ghost use Rattle.sk_words.specs.Operands.{natural, positive, pid};
ghost use Rattle.sk_words.specs.Reading.{read_from};
ghost use Rattle.sk_words.specs.Spelling.{spelled, pid_word, spaced};
ghost use Rattle.sk_words.specs.Printed.{AreBytes, IsWord, IsLine, IsReadAgain, is_bare_word, lined};

use crate::Reader;

/// A printed literal says the bytes that it was printed of, is a word, and is that of no other bytes.
pub fn literals()
    ensures again { (t : List ℕ) → AreBytes t → length t ≤ 512 → literal (spelled t) ≡ Ok t }
    ensures word { (t : List ℕ) → AreBytes t → IsWord (spelled t) }
    ensures once { (t u : List ℕ) → AreBytes t → AreBytes u → spelled t ≡ spelled u → t ≡ u }
{}

/// A printed number says that number, and is a word.
pub fn numbers()
    ensures natural { (n : ℕ) → n < 2 ^ 63 → natural (decimal n) ≡ Ok n }
    ensures positive { (n : ℕ) → 1 ≤ n → n < 2 ^ 63 → positive (decimal n) ≡ Ok n }
    ensures word { (n : ℕ) → n < 2 ^ 64 → IsWord (decimal n) }
{}

/// A printed process says that process, and is a word.
pub fn processes()
    ensures again { (p : ℕ) → IsPath p → pid (pid_word p) ≡ Ok p }
    ensures word { (p : ℕ) → IsPath p → IsWord (pid_word p) }
{}

/// Words with single spaces between them are cut again, none of them an open literal, and are one
/// line. Bytes that are all above blanks, line ends, quotes and # are a word.
pub fn words()
    ensures bare { (w : List ℕ) → is_bare_word w ≡ true → IsWord w }
    ensures again { (ws : List (List ℕ)) → AllByRecursion IsWord ws → words (spaced ws) ≡ ws }
    ensures closed { (ws : List (List ℕ)) → AllByRecursion IsWord ws → list_any is_open ws ≡ false }
    ensures line { (ws : List (List ℕ)) → AllByRecursion IsWord ws → IsLine (spaced ws) }
{}

/// Lines with LF behind each are cut again.
pub fn lines()
    ensures { (ls : List (List ℕ)) → AllByRecursion IsLine ls → lines (lined ls) ≡ ls }
{}

/// If the line of each item adds that item to whatever is known, then the lines of all items add all of them.
pub fn lines_add<R: Reader, A>()
    ensures { (line_of : A → List ℕ) (add : R → A → R) (s : R) (first : ℕ) (xs : List A) →
        AllByRecursion (λ x. (t : R) → R.said t (line_of x) ≡ Ok (add t x)) xs →
        read_from R.said s first (map line_of xs) ≡ Ok (fold add s xs) }
{}

/// A text of lines, one for each item, is read again as these items, where each line is read again behind those before it.
pub fn texts<A>()
    ensures { (said : List A → List ℕ → Result (List A) FaultKind) (line_of : A → List ℕ)
        (first : ℕ) (xs : List A) →
        AllByRecursion (IsReadAgain said line_of) xs →
        read_from said [] first (lines (flat_map (λ x. line_of x ++ 10 ∷ []) xs)) ≡ Ok xs }
{}
