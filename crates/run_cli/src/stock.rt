//! The form `stock`: the tables of a train by whole km/h.

ghost use Rattle.std.specs.Prelude.{◌≡◌, ◌≤◌, ◌+◌, Some, IfOk};
ghost use Rattle.run_files.specs.Files.{IsRead, stock_reading};
ghost use Rattle.run_files.specs.Loads.{Loads};
ghost use Rattle.run_cli.specs.FileLaws.{alone};
ghost use Rattle.run_cli.specs.Forms.{meaning_of};
ghost use Rattle.run_cli.specs.Stock.{stock_allows, stock_means};
ghost use Rattle.run_words.specs.Requests.{stock_view};

use crate::form::Form;
use crate::report::StockReport;
use run_files::{Status, load_stock};
use run_io::Shelf;
use run_words::StockForm;
use std::alloc::Global;
use std::sync::ledger::Ledger;
use stock_tables::Stock;
use unit_rules::{Memory, Steps};

impl<'a> Form for StockForm<'a> {
    type Tables = Stock;

    type Report = StockReport;

    ghost request = { stock_view };

    ghost are = { λ f told stock. IsRead stock_reading told f.stock.now stock };

    ghost right = { λ f stock r. r.stock ≡ stock };

    ghost cost = { λ f stock. 0 };

    fn load<S: Shelf>(&self, alloc: Global, shelf: &mut S) -> Result<Stock, Status> {
        load_stock(alloc, shelf, self.stock)
    }

    fn make<L: Ledger>(
        &self,
        _alloc: Global,
        stock: Stock,
        _steps: &mut Steps<L>,
    ) -> Result<StockReport, Memory> {
        Ok(StockReport { stock })
    }

    ghost files_alone = { λ f. alone _ _ _ _ };

    ghost means = { stock_means };

    ghost allows = { stock_allows };
}
