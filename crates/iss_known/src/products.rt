//! Products as they are known.
ghost use Rattle.std.specs.Prelude.{◌≡◌, ◌+◌, ◌&&◌, IsTrue};
ghost use Rattle.iss_model.specs.Forms.{is_stamp, is_timeout, is_hold_time};
ghost use Rattle.iss_model.specs.rules.Settings.{default_product};

use iss_model::limits::{DEFAULT_HOLD, DEFAULT_TIMEOUT};
use iss_model::{Currency, Funding, Named, Product, Token};
use std::marker::Model;

/// A product whose times are in form. Contracts see the product.
#[derive(Clone, Copy)]
pub(crate) struct Sold {
    product: Product,
}

impl Model for Sold {
    ghost use Rattle.std.specs.Prelude.{◌&&◌, IsTrue};
    ghost use Rattle.iss_model.specs.Forms.{is_timeout, is_hold_time};
    ghost use Rattle.iss_model.specs.declared.setting.Product.{Product};

    ghost Value = { Product };

    ghost view = { λ s. s.product };

    ghost inverse = { λ product. record { product = product } };

    ghost inverse_ok = { λ a h. λ i. a };

    ghost invariant = { λ s. IsTrue (is_timeout s.product.timeout_ms && is_hold_time s.product.hold_ms) };
}

impl Named for Sold {
    ghost name_of = { λ product. product.name };

    fn name(&self) -> &Token {
        &self.product.name
    }
}

impl Sold {
    /// A product whose times are in form.
    pub(crate) fn new(product: Product) -> Sold
        requires { IsTrue (is_timeout product.timeout_ms && is_hold_time product.hold_ms) }
        ensures { result ≡ product }
    {
        Sold { product }
    }

    pub(crate) fn product(&self) -> &Product
        ensures { result.now ≡ self.now }
    {
        &self.product
    }

    /// When what is held from a stamp on is let go, in milliseconds since 1970.
    pub(crate) fn expiry(&self, at: u64) -> u64
        requires { IsTrue (is_stamp at) }
        ensures { result ≡ at + self.now.hold_ms }
    {
        at + self.product.hold_ms
    }

    /// When a call of that stamp has timed out, in milliseconds since 1970.
    pub(crate) fn deadline(&self, at: u64) -> u64
        requires { IsTrue (is_stamp at) }
        ensures { result ≡ at + self.now.timeout_ms }
    {
        at + self.product.timeout_ms
    }
}

/// The product that stands without being made.
pub(crate) fn default_product() -> Product
    ensures { result ≡ default_product }
{
    let Some(name) = Token::new(b"default") else {
        unreachable!()
    };
    Product {
        name,
        currency: Currency::Usd,
        funding: Funding::Account,
        timeout_ms: DEFAULT_TIMEOUT,
        hold_ms: DEFAULT_HOLD,
    }
}
