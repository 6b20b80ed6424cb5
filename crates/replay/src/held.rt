// The check number of a list, in which the numbers follow one another.
const FACTOR: usize = 31;

const MODULUS: usize = 65521;

// The check number goes on over numbers.
pub(crate) fn numbers<T: Copy>(sum: usize, s: &[T]) -> usize
where
    usize: From<T>,
{
    s.iter().fold(sum, |sum, x| {
        (sum % MODULUS * FACTOR + usize::from(*x) % MODULUS) % MODULUS
    })
}
