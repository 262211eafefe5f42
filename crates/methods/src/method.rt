// The methods.
ghost use Rattle.std.specs.Prelude.{◌≡◌};
ghost use Rattle.methods.specs.Calls.{method_of};

use crate::schnabel_eskow::Variant;

#[derive(Clone, Copy)]
pub enum Method {
    Gmw81,
    Se(Variant),
}

impl Method {
    // By document 01's number: what passed check 2 is one of three, so this is no TryFrom, which would refuse a second time.
    pub fn of(method: usize) -> Method
        ensures { result ≡ method_of method }
    {
        if method <= 1 {
            return Method::Gmw81;
        }
        if method <= 2 {
            return Method::Se(Variant::Se90);
        }
        Method::Se(Variant::Se99)
    }
}
