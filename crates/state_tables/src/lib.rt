// The tables of ports and flows of an image, and the octets beside them: are they right?
#![tactic(auto)]

mod flows;
mod marks;
mod ports;
mod rest;

pub use flows::flows_fit;
pub use marks::allowed_fits;
pub use ports::{addresses_differ, ports_fit};
pub use rest::{LONG_RUN, rest_zero};
