//! A frame that keeps the list of its corrections, to compare with.

use patch_base::Memory;
use pauli_product::Product;
use std::alloc::Global;
use std::process::Abort;

#[derive(Drop)]
struct Correction {
    axis: Product,
    quarter: bool,
    half: bool,
}

impl Correction {
    fn turn(&self, rt: &impl Abort, image: &mut Product) {
        assert_eq!(rt; image.len(), self.axis.len());
        if self.quarter {
            image.conj_quarter(&self.axis);
        }
        if self.half {
            image.conj_half(&self.axis);
        }
    }
}

#[derive(Drop)]
pub struct PlainFrame {
    corrections: Vec<Correction>,
}

impl PlainFrame {
    pub fn new(alloc: Global) -> PlainFrame {
        PlainFrame {
            corrections: Vec::new(alloc),
        }
    }

    pub fn correct(&mut self, axis: Product, quarter: bool, half: bool) -> Result<(), Memory> {
        self.corrections.push(Correction {
            axis,
            quarter,
            half,
        })?;
        Ok(())
    }

    // The text of the image of a product.
    pub fn image_text(
        &self,
        rt: &impl Abort,
        alloc: Global,
        p: &Product,
    ) -> Result<Vec<u8>, Memory> {
        let mut image = p.copy(alloc)?;
        for correction in &self.corrections {
            correction.turn(rt, &mut image);
        }
        let mut text = Vec::new(alloc);
        image.print(&mut text)?;
        Ok(text)
    }
}
