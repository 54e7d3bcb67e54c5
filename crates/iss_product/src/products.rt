//! The products that stand.
ghost use Rattle.std.specs.Prelude.{◌≡◌, ◌↔◌, ◌&&◌, not, [], length, None, is_some, IsTrue, IfOk, OnOk, OnErr, IsErrOf};
ghost use Rattle.std.specs.Option.{option_copied};
ghost use Rattle.iss_model.specs.rules.Settings.{default_product, product_named, is_named_in};
ghost use Rattle.iss_model.specs.rules.Reasons.{is_full};
ghost use Rattle.iss_model.specs.state.Cores.{with_product, with_switch};
ghost use Rattle.iss_product.specs.Listed.{products_in, switched_in};

use indexmap::IndexMap;
use iss_model::limits::{DEFAULT_HOLD, DEFAULT_TIMEOUT, MOST_OF_A_KIND};
use iss_model::{Currency, Funding, Product, Token};
use std::alloc::{AllocError, Global};
use std::marker::Model;

/// Why a product wasn't added.
#[derive(Clone, Copy, Debug, PartialEq, Eq)]
pub enum ProductFault {
    /// There is a product of that name.
    Exists,
    /// There are 256 products.
    Limit,
    OutOfMemory,
}

/// A product, and whether its switch is on.
#[derive(Drop)]
struct Listed {
    product: Product,
    on: bool,
}

/// The products that stand, in the order in which they were added, each with its switch. The first is `default`.
///
/// A product is found by hashing its name. Names come from outside, but 256 of them bound what a look-up costs.
#[derive(Drop)]
pub struct Products {
    by_name: IndexMap<Token, Listed>,
}

impl Model for Products {
    ghost use Rattle.std.specs.Prelude.{List};
    ghost use Rattle.iss_model.specs.state.Cores.{ProductNow};

    ghost Value = { List ProductNow };

    ghost use Rattle.iss_product.specs.Listed.{listed_in, IsListed};

    ghost view = { λ products. listed_in products.by_name.entries };

    ghost invariant = { λ products. IsListed products.by_name.entries };
}

impl Products {
    /// The built-in product alone, with its switch off.
    pub fn new(alloc: Global) -> Result<Products, AllocError>
        ensures { IfOk result (λ products. products ≡ with_product [] default_product) }
    {
        let mut by_name = IndexMap::new(alloc);
        let product = default_product();
        by_name.insert(product.name, Listed { product, on: false })?;
        Ok(Products { by_name })
    }

    /// Adds a product with its switch off.
    pub fn add(&mut self, product: &Product) -> Result<(), ProductFault>
        ensures added { OnOk result (self.new ≡ with_product self.old product.now) }
        ensures refused { OnErr result (self.new ≡ self.old) }
        ensures exists { IsErrOf result ProductFault.Exists
            ↔ IsTrue (is_some (product_named product.now.name (products_in self.old))) }
        ensures limit { IsErrOf result ProductFault.Limit
            ↔ IsTrue (not (is_some (product_named product.now.name (products_in self.old))) && is_full self.old) }
    {
        if self.get(&product.name).is_some() {
            return Err(ProductFault::Exists);
        }
        if self.is_full() {
            return Err(ProductFault::Limit);
        }
        self.push(product)?;
        Ok(())
    }

    /// Turns a product's switch. False exactly if there is no product of that name.
    pub fn set_switch(&mut self, name: &Token, on: bool) -> bool
        ensures known { result ≡ is_some (product_named name.now (products_in self.old)) }
        ensures turned { self.new ≡ with_switch self.old name.now on }
    {
        let Some(listed) = self.by_name.get_mut(name) else {
            return false;
        };
        listed.on = on;
        true
    }

    /// The product of that name.
    pub fn get(&self, name: &Token) -> Option<&Product>
        ensures { option_copied result ≡ product_named name.now (products_in self.now) }
    {
        let listed = self.by_name.get(name)?;
        Some(&listed.product)
    }

    /// Whether there is a product of that name, with its switch on.
    pub fn switched(&self, name: &Token) -> bool
        ensures { result ≡ is_named_in (switched_in self.now) name.now }
    {
        match self.by_name.get(name) {
            Some(listed) => listed.on,
            None => false,
        }
    }

    /// How many products there are, with the built-in one.
    pub fn len(&self) -> usize
        ensures { result ≡ length self.now }
    {
        self.by_name.len()
    }

    /// Whether there are as many products as there may be.
    pub fn is_full(&self) -> bool
        ensures { result ≡ is_full self.now }
    {
        self.len() >= MOST_OF_A_KIND
    }

    fn push(&mut self, product: &Product) -> Result<(), AllocError>
        requires { product_named product.now.name (products_in self.old) ≡ None }
        ensures added { OnOk result (self.new ≡ with_product self.old product.now) }
        ensures refused { OnErr result (self.new ≡ self.old) }
    {
        let listed = Listed {
            product: *product,
            on: false,
        };
        self.by_name.insert(product.name, listed)?;
        Ok(())
    }
}

fn default_product() -> Product
    ensures { result ≡ default_product }
{
    let Some(name) = Token::new(b"default") else {
        unreachable!()
    };
    Product {
        name,
        currency: Currency::Usd,
        funding: Funding::Account,
        timeout_ms: DEFAULT_TIMEOUT,
        hold_ms: DEFAULT_HOLD,
    }
}

impl From<AllocError> for ProductFault {
    ghost use Rattle.iss_product.specs.declared.products.ProductFault.TheVariants.{OutOfMemory};

    ghost from_gives = { λ _ fault. fault ≡ OutOfMemory };

    fn from(_: AllocError) -> ProductFault {
        ProductFault::OutOfMemory
    }
}
