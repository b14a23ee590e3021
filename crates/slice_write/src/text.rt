//! The text of all slices.

ghost use Rattle.std.specs.Prelude.{◌≡◌, ◌+◌, ◌-◌, ◌<◌, ◌≤◌, ◌^◌, [], ◌∷◌, ◌++◌, All, decimal, flat_map, length, IfOk, OnOk, OnErr};
ghost use Rattle.patch_base.specs.Outside.{Rose, Grew, AppendsPrefix};
ghost use Rattle.patch_layout.specs.Grid.{Grid};
ghost use Rattle.board_core.specs.History.{entries};
ghost use Rattle.slice_write.specs.Slices.{greatest as greatest_of_all, upto};
ghost use Rattle.patch_base.specs.Passes.{Passes};
ghost use Rattle.slice_write.specs.Pictures.{slice_line};
ghost use Rattle.slice_write.specs.inside.Marks.{HasRoom, FewFactories, IsNarrow, paired};
ghost use Rattle.slice_write.specs.inside.Pages.{PagesAre, AreNarrow, IsDrawn, stepping_by, page_text, page_at, pages_text};

use crate::drawing::Drawing;
use crate::page::Page;
use board_core::Noted;
use node_log::Log;
use patch_base::{Failed, Memory, Pen, Sink};
use patch_layout::Layout;
use std::alloc::Global;

/// The greatest of these, and 0 where there are none.
pub(crate) fn greatest(slices: &[u32]) -> u32
    ensures { result ≡ greatest_of_all slices.now }
{
    let mut greatest = 0;
    for slice in slices {
        greatest = (*slice).max(greatest);
    }
    greatest
}

/// The page of each slice up to the last, from 0 on.
pub(crate) fn pages(
    alloc: Global,
    layout: &Layout,
    history: &Log<Noted>,
    slices: &[u32],
    last: u32,
) -> Result<Vec<Page>, Memory>
    requires same { length slices.now ≡ length history.now }
    requires within { All (λ n. n ≤ last) slices.now }
    requires room { All (HasRoom layout.now) (entries history.now) }
    requires factories { FewFactories layout.now }
    ensures { IfOk result (λ v. PagesAre layout.now
        (paired (entries history.now) slices.now) last v.items) }
{
    let mut pages = blank_pages(alloc, last)?;
    let mut held = Vec::new(alloc);
    let mut place = 0;
    for noted in history.walk() {
        let page = &mut pages[slices[place] as usize];
        page.add(layout, &noted.entry, &mut held)?;
        place += 1;
    }
    Ok(pages)
}

fn blank_pages(alloc: Global, last: u32) -> Result<Vec<Page>, Memory>
    ensures { IfOk result (λ v. (g : Grid) → PagesAre g [] last v.items) }
{
    let mut pages = Vec::new(alloc);
    'pages: for _ in 0..u64::from(last) + 1 {
        pages.push(Page::new(alloc))?;
    }
    Ok(pages)
}

// The factories that step, each after a space.
fn put_steps(pen: &mut Pen, steps: &[bool])
    requires count { length steps.now ≡ 16 }
    requires room { length pen.old + 176 ≤ 8192 }
    ensures text { pen.new ≡ pen.old ++ flat_map (λ f. 32 ∷ decimal f) (stepping_by steps.now) }
    ensures few { length pen.new ≤ length pen.old + 176 }
{
    for factory in 0..16u32 {
        if steps[factory as usize] {
            pen.put_byte(b' ');
            pen.put_decimal(factory);
        }
    }
}

fn put_line(pen: &mut Pen, number: u32, steps: &[bool])
    requires count { length steps.now ≡ 16 }
    requires room { length pen.old + 200 ≤ 8192 }
    ensures { pen.new ≡ pen.old ++ slice_line number (stepping_by steps.now) }
{
    pen.put(b"slice ");
    pen.put_decimal(number);
    put_steps(pen, steps);
    pen.put_byte(b'\n');
}

fn put_page<O: Sink>(
    pen: &mut Pen,
    layout: &Layout,
    number: u32,
    page: &Page,
    drawing: &mut Drawing,
    out: &mut O,
) -> Result<(), Failed>
    requires drawn { IsDrawn layout.now drawing.old }
    requires narrow { All (IsNarrow layout.now) page.now.marks.items }
    ensures counts { O.faults out.old ≤ O.faults out.new }
    ensures drawn { OnOk result (IsDrawn layout.now drawing.new) }
    ensures ok { OnOk result (Passes (O.taken out.old) (O.taken out.new) pen.old pen.new
        (page_text layout.now number page.now)) }
    ensures prefix { OnErr result (AppendsPrefix (O.taken out.old) (O.taken out.new)
        (pen.old ++ page_text layout.now number page.now)) }
    ensures failed { OnErr result (Rose (O.faults out.old) (O.faults out.new)) }
{
    pen.make_room(out)?;
    put_line(pen, number, &page.steps);
    if page.claims {
        drawing.show(&page.marks);
        pen.put_all(&drawing.bytes, out)?;
    }
    Ok(())
}

// The pages from 1 to the last.
fn put_pages<O: Sink>(
    pen: &mut Pen,
    layout: &Layout,
    pages: &[Page],
    drawing: &mut Drawing,
    out: &mut O,
) -> Result<(), Failed>
    requires some { 0 < length pages.now }
    requires few { length pages.now ≤ 2 ^ 32 }
    requires drawn { IsDrawn layout.now drawing.old }
    requires narrow { AreNarrow layout.now pages.now }
    ensures counts { O.faults out.old ≤ O.faults out.new }
    ensures ok { OnOk result (Passes (O.taken out.old) (O.taken out.new) pen.old pen.new
        (flat_map (page_at layout.now pages.now) (upto (length pages.now - 1)))) }
    ensures prefix { OnErr result (AppendsPrefix (O.taken out.old) (O.taken out.new)
        (pen.old ++ flat_map (page_at layout.now pages.now) (upto (length pages.now - 1)))) }
    ensures failed { OnErr result (Rose (O.faults out.old) (O.faults out.new)) }
{
    for n in 0..pages.len() - 1 {
        put_page(pen, layout, n as u32 + 1, &pages[n + 1], drawing, out)?;
    }
    Ok(())
}

/// The whole text, by its pages.
pub(crate) fn write_pages<O: Sink>(
    layout: &Layout,
    pages: &[Page],
    last: u32,
    drawing: &mut Drawing,
    out: &mut O,
) -> Result<(), Failed>
    requires count { length pages.now ≡ last + 1 }
    requires drawn { IsDrawn layout.now drawing.old }
    requires narrow { AreNarrow layout.now pages.now }
    ensures counts { O.faults out.old ≤ O.faults out.new }
    ensures all { OnOk result (Grew (O.taken out.old) (O.taken out.new)
        (pages_text layout.now last pages.now)) }
    ensures prefix { OnErr result (AppendsPrefix (O.taken out.old) (O.taken out.new)
        (pages_text layout.now last pages.now)) }
    ensures failed { OnErr result (Rose (O.faults out.old) (O.faults out.new)) }
{
    let mut pen = Pen::new();
    pen.put(b"slices 1 ");
    pen.put_decimal(last);
    pen.put_byte(b'\n');
    put_pages(&mut pen, layout, pages, drawing, out)?;
    pen.send(out)
}
