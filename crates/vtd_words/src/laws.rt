//! Laws of tables. Each function does nothing; its contract is the law, which the check proves. Other crates cite the
//! lemmas of `proofs/Fitting.antt` and `proofs/Same.antt`, which say the same.

ghost use Rattle.std.specs.Prelude.{◌≡◌, ℕ, ◌<◌, ◌*◌, ◌/◌, ◌^◌, List, length};
ghost use Rattle.std.specs.List.{AllByRecursion};
ghost use Rattle.xml_model.specs.declared.Node.{Node};
ghost use Rattle.xml_model.specs.Items.{first_place};
ghost use Rattle.xml_model.specs.Nest.{Forest};
ghost use Rattle.xml_model.specs.Records.{records};
ghost use Rattle.vtd_words.specs.Lists.{Lists};
ghost use Rattle.vtd_words.specs.Numbers.{bytes_of, number, words_in, AreBytes};
ghost use Rattle.vtd_words.specs.Table.{IsNestOf, IsNodeOf, Shows, IdentifiesInEach};

/// Each record of a table's nest fits into its word.
pub fn records_fit()
    ensures { (bytes : List ℕ) (lists : Lists) (nest : Forest) → length bytes < 2 ^ 30 → IsNestOf bytes lists nest →
        Shows lists.records (records nest (first_place bytes)) }
{}

/// All nests of a table have the same records.
pub fn same_records()
    ensures { (bytes : List ℕ) (lists : Lists) → length bytes < 2 ^ 30 →
        (f g : Forest) → IsNestOf bytes lists f → IsNestOf bytes lists g →
        records f (first_place bytes) ≡ records g (first_place bytes) }
{}

/// A node of a table is in each nest of the table.
pub fn node_in_each_nest()
    ensures { (bytes : List ℕ) (lists : Lists) → length bytes < 2 ^ 30 →
        (node : Node) → IsNodeOf bytes lists node → IdentifiesInEach bytes lists node }
{}

/// Two lists of so many bytes with the same big-endian number are equal.
pub fn same_number()
    ensures { (n : ℕ) (xs ys : List ℕ) → length xs ≡ n → length ys ≡ n → AreBytes xs → AreBytes ys →
        number n xs ≡ number n ys → xs ≡ ys }
{}

/// The bytes of the words in whole words of bytes are those bytes.
pub fn bytes_of_words()
    ensures { (n : ℕ) (bytes : List ℕ) → AreBytes bytes → length bytes ≡ n * (length bytes / n) →
        bytes_of n (words_in n bytes) ≡ bytes }
{}

/// The words in the bytes of words that fit are those words.
pub fn words_of_bytes()
    ensures { (n : ℕ) (words : List ℕ) → 0 < n → AllByRecursion (λ w. w < 256 ^ n) words →
        words_in n (bytes_of n words) ≡ words }
{}
