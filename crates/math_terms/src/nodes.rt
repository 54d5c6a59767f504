//! How many nodes terms have.

ghost use Rattle.std.specs.Prelude.{◌≡◌, ◌+◌, ◌-◌, ◌^◌, ◌<◌, min, sum_by};
ghost use Rattle.math_terms.specs.Terms.{nodes, count_up_to};

use crate::term::Term;

impl Term {
    /// How many nodes the term has, or `most + 1` where it has more than `most`. This takes no memory.
    #[tactic(auto, using(crate::proofs::Counting::count_up_to_nodes))]
    pub fn nodes_up_to(&self, most: u32) -> u32
        requires { most < 2 ^ 32 - 1 }
        ensures { result ≡ min (nodes self.now) (most + 1) }
    {
        count(self, 0, 1, most)
    }
}

/// How many nodes the term has where each variable v counts as `weight`, at most `most + 1`.
#[cycle(count)]
pub(crate) fn count(t: &Term, v: u32, weight: u32, most: u32) -> u32
    requires { most < 2 ^ 32 - 1 }
    ensures { result ≡ count_up_to v weight most t.now }
{
    match t {
        Term::Num(_) | Term::Truth(_) | Term::MinInt | Term::MaxInt | Term::Empty => 1,
        Term::Var(k) => { if *k == v { weight.min(most + 1) } else { 1 } }
        Term::Len(a)
        | Term::Single(a)
        | Term::Reverse(a)
        | Term::Proj(_, a)
        | Term::Not(a)
        | Term::Initial(_, a) => { one_more(most, count(a.get(), v, weight, most), 0, 0) }
        Term::Add(a, b)
        | Term::Sub(a, b)
        | Term::Mul(a, b)
        | Term::Div(a, b)
        | Term::Mod(a, b)
        | Term::Cat(a, b)
        | Term::Eq(a, b)
        | Term::Less(a, b)
        | Term::LessEq(a, b)
        | Term::And(a, b)
        | Term::Or(a, b)
        | Term::Implies(a, b) => {
            one_more(
                most,
                count(a.get(), v, weight, most),
                count(b.get(), v, weight, most),
                0,
            )
        }
        Term::Part(i, j, a) => one_more(
            most,
            count(i.get(), v, weight, most),
            count(j.get(), v, weight, most),
            count(a.get(), v, weight, most),
        ),
        Term::Tuple(parts) => count_tuple(parts.as_slice(), v, weight, most),
    }
}

/// The same for a tuple of these parts.
#[cycle(count)]
fn count_tuple(parts: &[Term], v: u32, weight: u32, most: u32) -> u32
    requires { most < 2 ^ 32 - 1 }
    ensures { result ≡ min (1 + sum_by (count_up_to v weight most) parts.now) (most + 1) }
{
    let mut total = 1;
    for t in parts {
        total = up_to(most, total, count(t, v, weight, most));
    }
    total
}

/// One more than three counts, at most `most + 1`.
pub(crate) fn one_more(most: u32, a: u32, b: u32, c: u32) -> u32
    requires { most < 2 ^ 32 - 1 }
    ensures { result ≡ min (1 + a + b + c) (most + 1) }
{
    let sum = 1 + u64::from(a) + u64::from(b) + u64::from(c);
    sum.min(u64::from(most) + 1) as u32
}

/// The sum of two counts, at most `most + 1`.
pub(crate) fn up_to(most: u32, a: u32, b: u32) -> u32
    requires { most < 2 ^ 32 - 1 }
    ensures { result ≡ min (a + b) (most + 1) }
{
    let sum = u64::from(a) + u64::from(b);
    sum.min(u64::from(most) + 1) as u32
}
