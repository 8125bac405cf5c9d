//! What routes look at of a router.
ghost use Rattle.std.specs.Prelude.{◌≡◌};
ghost use Rattle.router_routes.specs.Outlooks.{outlook_in, outlook_of};

use crate::parts::Parts;
use model_router::laws::identifiers::system_law;
use router_routes::Lent;

impl Parts {
    /// What routes look at of it.
    pub(crate) fn lent(&self) -> Lent<'_>
        ensures { outlook_in result ≡ outlook_of self.now }
    {
        let (one, two) = (self.one.book(), self.two.book());
        let (_rows_of_one, _rows_of_two) = (one.flag_pages(), two.flag_pages());
        let (one, two) = (one.store(), two.store());
        let _of_one = one.len();
        let _of_two = two.len();
        let system = self.desk.system();
        system_law(system);
        Lent {
            system,
            areas: self.areas.as_slice(),
            levels: self.desk.levels(),
            prefixes: self.prefixes.as_slice(),
            one,
            two,
        }
    }
}
