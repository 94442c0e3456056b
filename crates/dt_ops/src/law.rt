//! The operations as laws: what two words of a kind are joined to, and that neighbours may be joined in any order.
ghost use Rattle.std.specs.Prelude.{ℕ};
ghost use Rattle.dt_kinds.specs.declared.kind.Kind.{Kind};
ghost use Rattle.dt_ops.specs.Joins.{sum_of, prod_of, min_of, max_of, and_of, or_of, xor_of, first_of, last_of};
ghost use Rattle.dt_ops.specs.Laws.{GivesWords, IsAssociative};

/// An operation on the words of every kind, by which one may reduce in any bracketing (MPI 4.1, section 6.9.1).
pub trait Law {
    /// What two words of a kind are joined to.
    ghost join: { Kind → ℕ → ℕ → ℕ };

    /// Two words of a kind are joined to a word of it; of three words, any two neighbours may be joined first. The function does
    /// nothing.
    fn holds()
        ensures words { GivesWords join }
        ensures associative { IsAssociative join };
}

/// The sum, modulo the range of the kind (MPI_SUM).
#[derive(Drop)]
pub struct SumLaw;

impl Law for SumLaw {
    ghost join = { sum_of };

    fn holds() {}
}

/// The product, modulo the range of the kind (MPI_PROD).
#[derive(Drop)]
pub struct ProdLaw;

impl Law for ProdLaw {
    ghost join = { prod_of };

    fn holds() {}
}

/// The word that stands for the lesser number (MPI_MIN), by two's complement where the kind has a sign, as MPI_CHAR has here.
#[derive(Drop)]
pub struct MinLaw;

impl Law for MinLaw {
    ghost join = { min_of };

    fn holds() {}
}

/// The word that stands for the greater number (MPI_MAX), by two's complement where the kind has a sign, as MPI_CHAR has here.
#[derive(Drop)]
pub struct MaxLaw;

impl Law for MaxLaw {
    ghost join = { max_of };

    fn holds() {}
}

/// The bits that both words have (MPI_BAND).
#[derive(Drop)]
pub struct AndLaw;

impl Law for AndLaw {
    ghost join = { and_of };

    fn holds() {}
}

/// The bits that one word or the other has (MPI_BOR).
#[derive(Drop)]
pub struct OrLaw;

impl Law for OrLaw {
    ghost join = { or_of };

    fn holds() {}
}

/// The bits that one word has and the other hasn't (MPI_BXOR).
#[derive(Drop)]
pub struct XorLaw;

impl Law for XorLaw {
    ghost join = { xor_of };

    fn holds() {}
}

/// The first word, whatever the second one is.
#[derive(Drop)]
pub struct FirstLaw;

impl Law for FirstLaw {
    ghost join = { first_of };

    fn holds() {}
}

/// The second word, whatever the first one is.
#[derive(Drop)]
pub struct LastLaw;

impl Law for LastLaw {
    ghost join = { last_of };

    fn holds() {}
}
