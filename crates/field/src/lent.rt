// A field that is only lent serves like one that is owned.
use crate::Field;

impl<F: Field> Field for &F {
    ghost meaning = { λ f. F.meaning f.now };

    ghost keeps = { λ f. F.keeps f.now };

    fn size(&self) -> u16 {
        F::size(*self)
    }

    fn ground(&self) -> u16 {
        F::ground(*self)
    }

    fn order(&self) -> u16 {
        F::order(*self)
    }

    fn root(&self) -> u16 {
        F::root(*self)
    }

    fn add(&self, a: u16, b: u16) -> u16 {
        F::add(*self, a, b)
    }

    fn neg(&self, a: u16) -> u16 {
        F::neg(*self, a)
    }

    fn mul(&self, a: u16, b: u16) -> u16 {
        F::mul(*self, a, b)
    }

    fn inv(&self, a: u16) -> u16 {
        F::inv(*self, a)
    }

    fn power(&self, a: u16, exponent: u32) -> u16 {
        F::power(*self, a, exponent)
    }

    fn inverse_by_power(&self, a: u16) -> u16 {
        F::inverse_by_power(*self, a)
    }
}
