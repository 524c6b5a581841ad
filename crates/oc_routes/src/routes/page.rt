//! A GET or HEAD of `/-/`, or `/!`: the page that draws the status.

ghost use Rattle.std.specs.Prelude.{◌≡◌, IfOk};
ghost use Rattle.oc_routes.specs.Page.{page_text};

use oc_base::{Memory, put};
use std::alloc::Global;

/// The path of the page.
pub const PAGE_PATH: &str = "/!";

/// The path of the page in a form that shells and collectors can spell.
pub const PAGE_NAME: &str = "/-/";

/// The whole page. A script in it reads the status each second, by the name that goes with the page's own, and draws the
/// tree that the node's table tells.
pub const PAGE: &str = r##"<!doctype html>
<html lang="en">
<head>
<meta charset="utf-8">
<meta name="viewport" content="width=device-width, initial-scale=1">
<meta name="color-scheme" content="light dark">
<title>Overcast</title>
<link rel="icon" href="data:,">
<style>
:root {
  --paper: #f4f6f8; --card: #ffffff; --ink: #18232e; --quiet: #5a6876; --line: #d5dce3; --branch: #a9b6c2;
  --up: #17705a; --up-soft: #e3f2ed; --down: #b3261e; --down-soft: #fbeae8; --loose: #8a5a00; --loose-soft: #faf0dc;
  --here: #1d4f91; --here-soft: #e5edf8; --shade: 0 1px 2px rgba(24, 35, 46, .07);
}
@media (prefers-color-scheme: dark) {
  :root {
    --paper: #10161c; --card: #18212a; --ink: #e4ebf1; --quiet: #97a6b4; --line: #2b3742; --branch: #4a5a68;
    --up: #5fc9a8; --up-soft: #16302a; --down: #ff9a90; --down-soft: #3a1d1c; --loose: #e6b65c; --loose-soft: #352a14;
    --here: #8ab8f5; --here-soft: #1a2c44; --shade: none;
  }
}
* { box-sizing: border-box; }
html { -webkit-text-size-adjust: 100%; text-size-adjust: 100%; }
body { margin: 0; background: var(--paper); color: var(--ink); font: 15px/1.45 system-ui, -apple-system, "Segoe UI", Roboto, "Noto Sans", sans-serif; font-variant-numeric: tabular-nums; }
.wide { max-width: 76rem; margin: 0 auto; padding: 0 1.25rem; }
header { padding: 1.4rem 0 1rem; }
header .wide { display: flex; flex-wrap: wrap; gap: .4rem 1.2rem; align-items: center; }
h1 { margin: 0; font-size: 1.5rem; line-height: 1.2; letter-spacing: -.01em; display: flex; align-items: center; gap: .6rem; }
h1 span { min-width: 0; overflow-wrap: anywhere; }
h1 svg { width: 2.3rem; height: 2.3rem; color: var(--here); flex: none; }
.what { color: var(--quiet); flex: 1 1 16rem; }
.asof { color: var(--quiet); font-size: .87rem; white-space: nowrap; }
.asof i { display: inline-block; width: .55rem; height: .55rem; border-radius: 50%; background: var(--up); margin-right: .45rem; }
.silent .asof i { background: none; border: 2px solid var(--down); border-radius: 0; }
#silence { margin: 0 0 1rem; padding: .8rem 1rem; border: 1px solid var(--down); border-left-width: 6px; border-radius: 6px; background: var(--down-soft); }
body:not(.silent) #silence { display: none; }
#silence strong { color: var(--down); }
#silence span { display: block; }
.silent main { opacity: .7; }
.counts { display: grid; grid-template-columns: repeat(auto-fit, minmax(8.6rem, 1fr)); gap: .7rem; margin: 0 0 1.1rem; }
.counts div { background: var(--card); border: 1px solid var(--line); border-radius: 8px; padding: .6rem .8rem .65rem; box-shadow: var(--shade); display: flex; flex-direction: column-reverse; justify-content: flex-end; }
.counts dt { color: var(--quiet); font-size: .84rem; display: flex; align-items: center; gap: .4rem; }
.counts dd { margin: 0; font-size: 1.6rem; line-height: 1.2; font-weight: 600; letter-spacing: -.01em; overflow-wrap: anywhere; }
.counts dd.long { font-size: 1.05rem; line-height: 1.45; }
.columns { display: grid; grid-template: "drawn side" auto "all all" auto / minmax(0, 1fr) 21rem; gap: 1.1rem; align-items: start; }
.columns > div { display: grid; gap: 1.1rem; min-width: 0; }
.drawn { grid-area: drawn; } .side { grid-area: side; } .all { grid-area: all; }
section { background: var(--card); border: 1px solid var(--line); border-radius: 8px; padding: 1rem 1.1rem 1.1rem; box-shadow: var(--shade); min-width: 0; }
h2 { margin: 0 0 .7rem; font-size: 1.02rem; }
h2 small { font-weight: 400; color: var(--quiet); font-size: .87rem; margin-left: .35rem; }
p { margin: 0 0 .6rem; }
.quiet { color: var(--quiet); }
.mark { width: .95em; height: .95em; flex: none; vertical-align: -.1em; }
.up { color: var(--up); } .down { color: var(--down); } .loose { color: var(--loose); } .here { color: var(--here); }
.tools { display: flex; flex-wrap: wrap; gap: .5rem .7rem; align-items: center; margin-bottom: .8rem; }
.legend { display: flex; flex-wrap: wrap; gap: .2rem .9rem; list-style: none; margin: 0; padding: 0; font-size: .87rem; color: var(--quiet); flex: 1 1 auto; }
.legend li { display: flex; align-items: center; gap: .35rem; }
button, input { font: inherit; color: inherit; background: var(--card); border: 1px solid var(--branch); border-radius: 6px; padding: .22rem .6rem; }
button { cursor: pointer; }
button:hover { border-color: var(--here); color: var(--here); }
:focus-visible { outline: 2px solid var(--here); outline-offset: 2px; }
input { width: 9.5rem; }
ul.tree, ul.tree ul { list-style: none; margin: 0; padding: 0; }
ul.tree ul { margin-left: .56rem; padding-left: 1.1rem; }
ul.tree li { position: relative; }
ul.tree ul > li::before { content: ""; position: absolute; left: -1.1rem; top: 0; bottom: 0; border-left: 1.5px solid var(--branch); }
ul.tree ul > li:last-child::before { bottom: auto; height: 1.02rem; border-bottom-left-radius: 5px; }
ul.tree ul > li::after { content: ""; position: absolute; left: -1.1rem; top: 1.02rem; width: .95rem; border-top: 1.5px solid var(--branch); }
.row { display: flex; flex-wrap: wrap; align-items: flex-start; gap: .05rem .45rem; padding: .24rem .4rem .24rem 0; border-radius: 6px; min-height: 2.04rem; }
.row b, .leaf b { font-weight: 600; }
.row > b { line-height: 1.56rem; }
.row > .more { line-height: 1.25; padding-top: .2rem; flex: 1 1 14rem; }
.row > .more:empty { display: none; }
.row > .mark { margin-top: .33rem; }
.row .more { color: var(--quiet); font-size: .87rem; min-width: 0; overflow-wrap: anywhere; }
.row b, .row .word { white-space: nowrap; flex: none; }
.row .leaf { min-width: 0; }
.fold { border: 0; background: none; padding: 0 .25rem; color: var(--quiet); line-height: 1; border-radius: 4px; min-width: 1.5rem; min-height: 1.5rem; }
.fold svg { width: .7rem; height: .7rem; transition: transform .12s; }
.fold[aria-expanded=true] svg { transform: rotate(90deg); }
.self > .row { background: var(--here-soft); padding-left: .3rem; padding-right: .7rem; display: inline-flex; max-width: 100%; }
ul.tree li.leaves ul { display: flex; flex-wrap: wrap; gap: .3rem .35rem; margin: 0; padding: .17rem 0 .3rem; }
ul.tree li.leaves li::before, ul.tree li.leaves li::after { content: none; }
.leaf { display: inline-flex; flex-wrap: wrap; align-items: center; gap: 0 .34rem; max-width: 100%; padding: .06rem .55rem .06rem .42rem; border: 1px solid var(--line); border-radius: .85rem; background: var(--up-soft); min-height: 1.7rem; }
.leaf .more { color: var(--quiet); font-size: .84rem; min-width: 0; overflow-wrap: anywhere; }
.leaves li, .leaf .named { min-width: 0; }
.out .leaf, .out .row { color: var(--ink); }
.down-node { border-radius: 4px; border-style: dashed; border-color: var(--down); background: var(--down-soft); }
.loose-node { border-radius: 4px; border-style: dotted; border-color: var(--loose); background: var(--loose-soft); }
.out .row .leaf { margin: .05rem 0; }
.found > .row, .found.leaf, .found > .leaf { outline: 3px solid var(--here); outline-offset: 1px; border-radius: 6px; }
#wrong { margin: 0 0 1.1rem; }
#wrong.is-wrong { border-color: var(--down); border-left-width: 6px; }
#wrong ul { list-style: none; margin: 0; padding: 0; }
#wrong li { display: flex; gap: .55rem; padding: .34rem 0; border-top: 1px solid var(--line); }
#wrong li:first-child { border-top: 0; padding-top: 0; }
#wrong li > .mark { margin-top: .22rem; }
#wrong li > div { min-width: 0; overflow-wrap: anywhere; }
#wrong li .more { color: var(--quiet); }
#wrong p { margin: 0; }
.named { font-weight: 400; overflow-wrap: anywhere; }
.row > .named { line-height: 1.56rem; flex: 0 1 auto; min-width: 0; }
details summary { cursor: pointer; color: var(--quiet); padding: .15rem 0; }
details[open] summary { margin-bottom: .4rem; }
details.inner { margin-top: .7rem; border-top: 1px solid var(--line); padding-top: .5rem; }
dl.facts dd.hint { grid-column: 1 / -1; text-align: left; color: var(--quiet); font-size: .84rem; margin-bottom: .3rem; }
th abbr { text-decoration: underline dotted; text-underline-offset: 2px; cursor: help; }
td.word { white-space: normal; }
td.named { min-width: 6rem; }
#groups { max-height: 38rem; overflow: auto; }
dl.facts { margin: 0; display: grid; grid-template-columns: auto minmax(0, 1fr); gap: .22rem .9rem; }
dl.facts dt { color: var(--quiet); }
dl.facts dd { margin: 0; text-align: right; overflow-wrap: anywhere; }
.group { padding: .45rem 0; border-top: 1px solid var(--line); }
.group:first-of-type { border-top: 0; padding-top: 0; }
.group .name { font-weight: 600; overflow-wrap: anywhere; display: block; }
.group .size { color: var(--quiet); font-size: .9rem; display: flex; flex-wrap: wrap; justify-content: space-between; gap: .1rem .7rem; }
.seal { display: inline-flex; align-items: center; gap: .3rem; }
.lease { display: grid; grid-template-columns: 2.6rem minmax(1rem, 1fr) auto; gap: .1rem .6rem; align-items: center; padding: .18rem 0; font-size: .93rem; }
.lease span:first-child { overflow-wrap: anywhere; }
.lease.is-named span:first-child { grid-column: 1 / -1; }
.lease.is-named { grid-template-columns: minmax(1rem, 1fr) auto; }
.lease meter { width: 100%; height: .6rem; }
.lease .rate { color: var(--quiet); text-align: right; min-width: 5rem; white-space: nowrap; }
.leases { max-height: 22rem; overflow: auto; }
.scroll { overflow-x: auto; }
table { border-collapse: collapse; width: 100%; font-size: .92rem; }
th, td { text-align: right; padding: .26rem .45rem; border-top: 1px solid var(--line); white-space: nowrap; }
thead th { border-top: 0; border-bottom: 1.5px solid var(--branch); font-weight: 600; font-size: .86rem; color: var(--quiet); vertical-align: bottom; }
tbody th { font-weight: 600; }
.word { text-align: left; }
.said { position: absolute; width: 1px; height: 1px; overflow: hidden; clip-path: inset(50%); white-space: nowrap; }
footer { color: var(--quiet); font-size: .86rem; padding: 1.1rem 0 2rem; }
footer a { color: inherit; }
@media (max-width: 60rem) { .columns { grid-template: "drawn" auto "side" auto "all" auto / minmax(0, 1fr); } }
@media (max-width: 34rem) {
  .wide { padding: 0 .8rem; }
  header { padding: 1rem 0 .8rem; }
  h1 { font-size: 1.3rem; } h1 svg { width: 2rem; height: 2rem; }
  section { padding: .85rem .8rem .9rem; }
  .counts { grid-template-columns: repeat(2, minmax(0, 1fr)); gap: .5rem; }
  .counts dd { font-size: 1.35rem; }
  ul.tree ul { margin-left: .35rem; padding-left: .75rem; }
  ul.tree ul > li::before, ul.tree ul > li::after { left: -.75rem; }
  ul.tree ul > li::after { width: .62rem; }
  .row > .more:not(.word) { flex: 1 1 100%; padding: 0 0 0 2.2rem; }
}
@media screen and (max-width: 50rem) {
  thead { display: none; }
  table, tbody { display: block; }
  tbody tr { display: flex; flex-wrap: wrap; gap: .05rem .9rem; padding: .35rem 0; border-top: 1px solid var(--line); }
  tbody th, td { display: block; border: 0; padding: 0; text-align: left; min-width: 0; overflow-wrap: anywhere; }
  td:not(.word)::before { content: attr(data-column) ' '; color: var(--quiet); }
  td:empty, td.none { display: none; }
}
ul.tree ul ul ul ul ul ul ul ul { margin-left: 0; padding-left: .4rem; }
ul.tree ul ul ul ul ul ul ul ul > li::before, ul.tree ul ul ul ul ul ul ul ul > li::after { left: -.4rem; max-width: .35rem; }
@media (prefers-reduced-motion: reduce) { .fold svg { transition: none; } }
@media print {
  body { background: none; font-size: 10pt; }
  section, .counts div { border: 0; box-shadow: none; padding: .3rem 0; background: none; }
  .columns { display: block; }
  .columns > .drawn, .live, .asof i, footer { display: none; }
  .scroll { overflow: visible; }
  thead { display: table-header-group; }
  tr, .group { break-inside: avoid; }
}
</style>
</head>
<body>
<svg width="0" height="0" style="position: absolute" aria-hidden="true" focusable="false">
  <symbol id="up" viewBox="0 0 16 16"><circle cx="8" cy="8" r="6.5" fill="currentColor"/></symbol>
  <symbol id="down" viewBox="0 0 16 16"><rect x="1.2" y="1.2" width="13.6" height="13.6" rx="1.5" fill="none" stroke="currentColor" stroke-width="1.8"/><path d="M4.6 4.6l6.8 6.8M11.4 4.6l-6.8 6.8" stroke="currentColor" stroke-width="1.8"/></symbol>
  <symbol id="loose" viewBox="0 0 16 16"><path d="M8 1.2L14.8 8 8 14.8 1.2 8z" fill="none" stroke="currentColor" stroke-width="1.8"/></symbol>
  <symbol id="here" viewBox="0 0 16 16"><circle cx="8" cy="8" r="6.6" fill="none" stroke="currentColor" stroke-width="1.8"/><circle cx="8" cy="8" r="3.2" fill="currentColor"/></symbol>
  <symbol id="more" viewBox="0 0 10 10"><path d="M3 1l4.4 4L3 9z" fill="currentColor"/></symbol>
  <symbol id="sealed" viewBox="0 0 16 16"><rect x="2.5" y="7" width="11" height="8" rx="1.5" fill="currentColor"/><path d="M5 7V4.8a3 3 0 0 1 6 0V7" fill="none" stroke="currentColor" stroke-width="1.8"/></symbol>
  <symbol id="open" viewBox="0 0 16 16"><path d="M2 13.5h12M8 11V2.5M4.6 5.6L8 2.2l3.4 3.4" fill="none" stroke="currentColor" stroke-width="1.8"/></symbol>
</svg>
<header><div class="wide">
  <h1><svg viewBox="0 0 40 40" aria-hidden="true"><path d="M11 22a6.5 6.5 0 0 1 .6-12.9A9 9 0 0 1 28.700 11 5.700 5.700 0 0 1 29 22z" fill="currentColor"/><path d="M14 25v4m0 0l-4 5m4-5l4 5M27 25v9" stroke="currentColor" stroke-width="1.8" fill="none" stroke-linecap="round"/></svg><span id="name">Overcast</span></h1>
  <div class="what" id="what"></div>
  <div class="asof"><i></i><span id="asof">Reading the node's status</span></div>
</div></header>
<div class="wide">
<div id="silence"><strong role="alert" id="silence-what"></strong><span id="silence-since"></span></div>
<noscript><p>This page draws what the node tells, and needs JavaScript for it. Without it read <a href="../-/status">/-/status</a> or <a href="../-/metrics">/-/metrics</a>.</p></noscript>
<main id="main" hidden>
  <section id="wrong" aria-labelledby="wrong-title">
    <h2 id="wrong-title">What is wrong</h2>
    <ul id="wrong-list"></ul>
    <p class="quiet" id="fine">Nothing that this node knows of.</p>
  </section>
  <dl class="counts" id="counts"></dl>
  <div class="columns">
    <div class="drawn">
      <section aria-labelledby="tree-title">
        <h2 id="tree-title">The tree</h2>
        <div class="tools">
          <ul class="legend" id="legend"></ul>
          <label for="find" class="quiet">Node</label><input id="find" placeholder="number or name" autocomplete="off">
          <button id="unfold" type="button">Unfold all</button>
        </div>
        <ul class="tree" id="tree"></ul>
      </section>
      <section id="out" aria-labelledby="out-title" hidden>
        <h2 id="out-title">Not in the tree</h2>
        <p class="quiet" id="out-says"></p>
        <ul class="tree out" id="out-tree"></ul>
      </section>
    </div>
    <div class="side">
      <section aria-labelledby="groups-title"><h2 id="groups-title">Groups</h2><div id="groups" tabindex="0" role="group" aria-label="Groups"></div></section>
      <section aria-labelledby="node-title"><h2 id="node-title">This node</h2><dl class="facts" id="facts"></dl>
        <details class="inner"><summary>In the words of the protocol</summary><dl class="facts" id="inner"></dl></details></section>
      <section class="live" id="children" aria-labelledby="children-title"><h2 id="children-title">Leases of its children</h2><div class="leases" id="leases" tabindex="0" role="group" aria-label="Leases of its children"></div></section>
    </div>
    <section class="all" aria-labelledby="all-title">
      <h2 id="all-title">All nodes of the table</h2>
      <p class="quiet" id="caption"></p>
      <div class="scroll" tabindex="0" role="group" aria-label="All nodes of the table"><table aria-labelledby="all-title" aria-describedby="caption">
        <thead><tr><th scope="col">Node</th><th scope="col" class="word">Name</th><th scope="col" class="word">State</th><th scope="col">Heard of</th><th scope="col">Parent</th><th scope="col">Clients</th><th scope="col"><abbr title="How often the node has asked another one to be its parent (seq).">Ask</abbr></th><th scope="col"><abbr title="How often the node has told how many clients it served (number).">Count</abbr></th><th scope="col"><abbr title="For how long a child is taken for alive without another word of it.">Lease</abbr></th><th scope="col"><abbr title="What the child measured of its line to this node.">Rate</abbr></th></tr></thead>
        <tbody id="rows"></tbody>
      </table></div>
    </section>
  </div>
</main>
<footer>Read each second from <a href="../-/status">/-/status</a>; for monitors there is <a href="../-/metrics">/-/metrics</a>.</footer>
</div>
<script>
'use strict';
(() => {
  const LEASE = 30, DEEP = 8, FEW = innerWidth < 600 ? 36 : 90, STATES = { up: 'up', down: 'down', loose: 'unlisted', here: 'this node' };
  const get = (id) => document.getElementById(id);
  const opened = new Date();
  let last = null, good = null, folds = new Map(), found = null, drawn = '', all = false;

  // Elements, texts and numbers

  function el(tag, more, ...inner) {
    const made = document.createElement(tag);
    for (const key in more || {}) if (more[key] !== undefined) made.setAttribute(key, more[key]);
    made.append(...inner.filter((it) => it !== null && it !== ''));
    return made;
  }
  function mark(name) {
    const svg = document.createElementNS(get('up').namespaceURI, 'svg');
    svg.setAttribute('class', 'mark ' + name);
    svg.setAttribute('aria-hidden', 'true');
    const use = document.createElementNS(svg.namespaceURI, 'use');
    use.setAttribute('href', '#' + name);
    svg.append(use);
    return svg;
  }
  function put(node, text) { if (node.textContent !== text) node.textContent = text; }
  const grouped = (n) => String(n).replace(/\B(?=(\d{3})+$)/g, '\u202f');
  const many = (n, one, more) => grouped(n) + '\u00a0' + (String(n) === '1' ? one : more);
  const sum = (list) => list.reduce((whole, n) => whole + BigInt(n), 0n);
  function size(n) {
    const words = ['B', 'KiB', 'MiB', 'GiB', 'TiB', 'PiB', 'EiB'];
    let value = Number(n), at = 0;
    while (value >= 1023.5 && at + 1 < words.length) { value /= 1024; at += 1; }
    return (at === 0 ? value : value.toFixed(value < 10 ? 2 : value < 100 ? 1 : 0)) + '\u00a0' + words[at];
  }
  const time = (date) => date.toLocaleTimeString([], { hour: '2-digit', minute: '2-digit', second: '2-digit' });
  const day = (date) => date.toLocaleDateString([], { day: 'numeric', month: 'short', year: 'numeric' });
  // the moment so many seconds before the last answer
  function moment(seconds) {
    const date = new Date((last || opened).getTime() - 1000 * seconds);
    return seconds < 43200 ? time(date) : day(date) + ', ' + date.toLocaleTimeString([], { hour: '2-digit', minute: '2-digit' });
  }
  function span(seconds) {
    const [h, m, s] = [Math.floor(seconds / 3600), Math.floor(seconds / 60) % 60, seconds % 60];
    return h > 47 ? Math.floor(h / 24) + ' days' : h ? h + ' h ' + m + ' min' : m ? m + ' min ' + s + ' s' : s + ' s';
  }
  function ranges(list) {
    const runs = [];
    for (const n of list) {
      const run = runs[runs.length - 1];
      if (run && run[1] === n - 1) run[1] = n; else runs.push([n, n]);
    }
    return runs.map(([a, b]) => a === b ? a : b === a + 1 ? a + ', ' + b : a + '–' + b).join(', ');
  }

  // the same, of which the first are told
  function front(list) {
    const few = ranges(list).split(', ');
    return few.length > 24 ? few.slice(0, 20).join(', ') + ' …' : few.join(', ');
  }

  // What a status says

  function read(status) {
    // a row of the node itself is old news of others: it is in the plain table alone
    const others = status.table.filter((row) => row.node !== status.node);
    const rows = new Map(others.map((row) => [row.node, row]));
    const beneath = new Map(), under = (parent, node) => beneath.has(parent) ? beneath.get(parent).push(node) : beneath.set(parent, [node]);
    const out = others.filter((row) => !row.listed);
    for (const row of others) if (row.listed) under(row.parent, row.node);
    const sizes = new Map(), order = [];
    const reach = (node) => { order.push(node); for (const child of beneath.get(node) || []) reach(child); };
    reach(status.node);
    for (const node of order.slice().reverse()) {
      const inner = beneath.get(node) || [];
      const own = node === status.node ? status.clients : rows.get(node).clients;
      sizes.set(node, { nodes: inner.reduce((n, it) => n + 1 + sizes.get(it).nodes, 0), clients: inner.reduce((n, it) => n + sizes.get(it).clients, BigInt(own)) });
    }
    const names = new Map([[status.node, status.name], ...status.table.map((row) => [row.node, row.name]), ...status.missing.map((it) => [it.node, it.name])].filter(([, name]) => name));
    return { status, others, rows, beneath, out, sizes, order, names, children: new Map(status.children.map((it) => [it.node, it])) };
  }
  // a node in a text: its number, and its name where it has one
  const title = (seen, node) => seen.names.has(node) ? node + ' ' + seen.names.get(node) : String(node);
  const name = (seen, node) => seen.names.has(node) ? el('span', { class: 'named', title: seen.names.get(node) }, seen.names.get(node)) : '';
  // when a node was heard of
  const heardOf = (row) => row.heard === null ? 'not heard of since this node started' : 'last heard of at ' + moment(Number(row.heard)) + ', ' + span(Number(row.heard)) + ' ago';
  const state = (row) => row.listed ? 'up' : row.up ? 'loose' : 'down';
  const clients = (n) => String(n) === '0' ? '' : many(n, 'client', 'clients');

  // a node is out of the tree while it has no parent and does not act
  const isOut = (s) => s.mode !== 'acting' && s.mode !== 'joined';
  const at = (s) => s.mode === 'acting' ? 'acting as root' : s.mode === 'joined' ? 'joined to node ' + s.parent : s.mode === 'asking' ? 'out of the tree, asking node ' + s.parent + ' to be its parent' : 'idle, out of the tree';

  // The tree

  function leaf(seen, node, kind) {
    const word = kind === 'up' ? el('span', { class: 'said' }, ' up') : '';
    return el('span', { class: 'leaf ' + kind + '-node', 'data-node': node, 'data-kind': kind === 'up' ? '' : STATES[kind] },
      mark(kind), el('b', null, String(node)), name(seen, node), word, el('span', { class: 'more', 'data-says': 'leaf' }));
  }
  function isOpen(seen, node) {
    if (folds.has(node)) return folds.get(node);
    return all || seen.open.has(node);
  }
  // the inner nodes that are unfolded at first: from the top down, as long as few rows are drawn
  function opens(seen) {
    const open = new Set(), line = [seen.status.node];
    let rows = 1;
    for (const node of line) {
      const inner = (seen.beneath.get(node) || []).filter((it) => seen.beneath.has(it));
      const cost = inner.length + 1;
      if (node !== seen.status.node && rows + cost > FEW) continue;
      rows += cost;
      open.add(node);
      line.push(...inner);
    }
    return open;
  }
  // puts a node and what is beneath it into a list; past some depth all stands at one margin, and says beneath whom it is
  function branch(seen, node, list, depth, above) {
    const here = node === seen.status.node, inner = seen.beneath.get(node) || [];
    const made = el('li', { class: here ? 'self' : undefined, 'data-node': node }), row = el('div', { class: 'row' });
    const open = isOpen(seen, node);
    if (inner.length) {
      const fold = el('button', { type: 'button', class: 'fold', 'aria-expanded': String(open), 'aria-label': 'What is beneath node ' + node, 'data-fold': node });
      const arrow = mark('more');
      arrow.setAttribute('class', '');
      fold.append(arrow);
      row.append(fold);
    }
    row.append(mark(here ? 'here' : 'up'), el('b', null, (here ? 'Node ' : '') + node), name(seen, node), el('span', { class: here ? 'more word' : 'said' }, here ? 'this node' + (isOut(seen.status) ? ', out of the tree' : '') : 'up'));
    row.append(el('span', { class: 'more', 'data-says': 'row', 'data-above': above }));
    made.append(row);
    list.append(made);
    if (inner.length && open) {
      const deep = depth === DEEP, below = deep ? list : el('ul'), under = deep ? 'beneath ' + node : '';
      if (!deep) made.append(below);
      below.append(...leaves(seen, inner.filter((it) => !seen.beneath.has(it)), () => 'up', under));
      for (const it of inner) if (seen.beneath.has(it)) branch(seen, it, below, deep ? depth : depth + 1, under);
    }
  }
  // the leaves of a node, side by side
  function leaves(seen, nodes, kind, under) {
    const label = under ? [el('li', { class: 'quiet' }, under)] : [];
    return nodes.length ? [el('li', { class: 'leaves' }, el('ul', null, ...label, ...nodes.map((it) => el('li', null, leaf(seen, it, kind(it))))))] : [];
  }
  // those who are not in the tree, beneath the parents that their rows name; where these go in a circle, from its least on
  function outside(seen) {
    const rows = new Map(seen.out.map((row) => [row.node, row])), beneath = new Map(), told = new Set(), list = document.createDocumentFragment();
    for (const row of seen.out) if (rows.has(row.parent)) beneath.set(row.parent, [...(beneath.get(row.parent) || []), row.node]);
    const kind = (node) => state(rows.get(node));
    const one = (node, into, depth, says) => {
      told.add(node);
      const made = el('li', { 'data-node': node }, el('div', { class: 'row' }, leaf(seen, node, kind(node)), el('span', { class: 'more' }, says)));
      into.append(made);
      const inner = (beneath.get(node) || []).filter((it) => !told.has(it)), ends = inner.filter((it) => !beneath.has(it));
      const deep = depth === DEEP, below = deep ? into : el('ul'), under = deep ? 'beneath ' + node : '';
      for (const it of ends) told.add(it);
      if (inner.length && !deep) made.append(below);
      below.append(...leaves(seen, ends, kind, under));
      for (const it of inner) if (beneath.has(it) && !told.has(it)) one(it, below, deep ? depth : depth + 1, under);
    };
    for (const row of seen.out) if (!rows.has(row.parent)) one(row.node, list, 0, 'last beneath ' + row.parent);
    for (const row of seen.out) if (!told.has(row.node)) one(row.node, list, 0, 'last beneath ' + row.parent);
    return list;
  }
  function draw(seen) {
    seen.open = opens(seen);
    // the drawing is made anew only where the tree or what is unfolded is another than before
    const shape = JSON.stringify([seen.status.node, isOut(seen.status), seen.status.table.map((row) => [row.node, row.parent, row.up, row.listed]), [...seen.names], [...folds], all]);
    if (shape !== drawn) {
      const focused = document.activeElement && document.activeElement.dataset.fold;
      get('tree').replaceChildren();
      branch(seen, seen.status.node, get('tree'), 0, '');
      get('out').hidden = seen.out.length === 0;
      get('out-tree').replaceChildren(outside(seen));
      if (focused) { const it = document.querySelector('[data-fold="' + focused + '"]'); if (it) it.focus(); }
      drawn = shape;
      point();
    }
    for (const says of document.querySelectorAll('[data-says]')) {
      const node = Number(says.closest('[data-node]').dataset.node);
      if (says.dataset.says === 'leaf') {
        const kind = says.closest('.leaf').dataset.kind;
        const row = seen.rows.get(node), silent = state(row) === 'down' && row.heard !== null ? ', heard of ' + span(Number(row.heard)) + ' ago' : '';
        put(says, [kind && kind + silent, clients(row.clients)].filter(Boolean).join(' · '));
      } else {
        const own = node === seen.status.node ? seen.status.clients : seen.rows.get(node).clients, of = seen.sizes.get(node);
        const beneath = of.nodes ? many(of.nodes, 'node', 'nodes') + ' beneath' : '';
        const theirs = of.nodes && of.clients !== BigInt(own) ? ' with ' + many(of.clients - BigInt(own), 'client', 'clients') : '';
        put(says, [says.dataset.above, clients(own), beneath + theirs].filter(Boolean).join(' · '));
      }
    }
    const inner = seen.order.filter((it) => seen.beneath.has(it)).length;
    const anyFolded = seen.order.some((it) => seen.beneath.has(it) && !isOpen(seen, it));
    get('unfold').hidden = inner < 2;
    put(get('unfold'), anyFolded ? 'Unfold all' : 'Fold');
    get('unfold').dataset.open = String(anyFolded);
  }

  // The other parts

  function counts(seen) {
    const s = seen.status, listed = seen.order.length - 1;
    const down = seen.out.filter((row) => !row.up).length, loose = seen.out.length - down;
    const whole = sum([s.clients, ...seen.others.map((row) => row.clients)]);
    const list = [
      ['up', 'up beneath it', grouped(listed)], ['down', 'down', grouped(down)], ['loose', 'unlisted', grouped(loose)],
      [null, 'clients served', grouped(whole)], [null, 'groups, of ' + s.groups_limit, grouped(s.groups.length)],
      [null, 'sent since its start', size(s.sent)],
    ];
    const box = get('counts');
    if (!box.children.length) for (const [kind, word] of list) box.append(el('div', null, el('dt', null, kind ? mark(kind) : '', word), el('dd')));
    list.forEach(([, , n], at) => { put(box.children[at].lastChild, n); box.children[at].lastChild.className = n.length > 10 ? 'long' : ''; });
    const says = [];
    if (down) says.push('Down: its lease has ended, by the last word that came of it.');
    if (loose) says.push('Unlisted: it was up by the last word, but no way of living nodes leads from this node to it.');
    put(get('out-says'), says.join(' '));
  }
  // What is wrong: each of these gives lines, with a mark, what is wrong, and more of it

  const FEW_LINES = 5;
  // a line for each of the first, and one for all others
  function lines(list, one, others) {
    const told = list.length > FEW_LINES + 1 ? list.slice(0, FEW_LINES) : list, rest = list.slice(told.length);
    return [...told.map(one), ...(rest.length ? [others(rest)] : [])];
  }
  const WRONG = [
    function outOfTree(seen) {
      const s = seen.status;
      return isOut(s) ? [['down', 'This node is out of the tree', s.mode === 'asking' ? 'it asks ' + title(seen, s.parent) + ' to be its parent' : 'it has no parent and does not act as root']] : [];
    },
    function down(seen) {
      const list = seen.out.filter((row) => !row.up).sort((a, b) => (a.heard === null) - (b.heard === null) || a.heard - b.heard);
      return lines(list, (row) => ['down', title(seen, row.node) + ' is down', heardOf(row)],
        (rest) => ['down', many(rest.length, 'more node is', 'more nodes are') + ' down', front(rest.map((row) => row.node).sort((a, b) => a - b))]);
    },
    function cutOff(seen) {
      const list = seen.out.filter((row) => row.up).map((row) => row.node);
      return list.length ? [['loose', many(list.length, 'node is', 'nodes are') + ' unlisted', 'no way of living nodes leads there: ' + front(list)]] : [];
    },
    function missing(seen) {
      return lines(seen.status.missing, (it) => ['loose', title(seen, it.node) + ' is missing', 'it has an address in the configuration, and this node\u2019s table has no row of it'],
        (rest) => ['loose', many(rest.length, 'more node is', 'more nodes are') + ' missing', front(rest.map((it) => it.node))]);
    },
    function configuration(seen) {
      return seen.status.configuration === 'good' ? [] : [['down', 'The file of the configuration was refused when it was read last', 'the node goes on by the one before; its error output says why']];
    },
    function refused(seen) {
      const { mac, message } = seen.status.refused, started = ', since the start at ' + start(seen.status);
      return [
        ...(String(mac) === '0' ? [] : [['loose', many(mac, 'message', 'messages') + ' without a good MAC', 'refused' + started + ': another key, or a stranger']]),
        ...(String(message) === '0' ? [] : [['loose', many(message, 'message', 'messages') + ' that were none to this node', 'refused' + started + ': another version or configuration, or a stranger']]),
      ];
    },
    function full(seen) {
      return seen.status.groups.length < seen.status.groups_limit ? [] : [['loose', 'All ' + seen.status.groups_limit + ' groups are taken', 'another one is refused']];
    },
  ];
  function wrong(seen) {
    const list = WRONG.flatMap((find) => find(seen)), box = get('wrong-list');
    get('wrong').classList.toggle('is-wrong', list.length > 0);
    get('fine').hidden = list.length > 0;
    while (box.children.length > list.length) box.lastChild.remove();
    while (box.children.length < list.length) box.append(el('li', null, el('span'), el('div', null, el('b'), el('span', { class: 'more' }))));
    list.forEach(([kind, what, more], at) => {
      const [sign, says] = box.children[at].children;
      if (box.children[at].dataset.kind !== kind) { box.children[at].dataset.kind = kind; sign.replaceChildren(mark(kind)); }
      put(says.firstChild, what);
      put(says.lastChild, ': ' + more + '.');
    });
  }

  // This node

  // the day and time of its start
  const start = (s) => { const date = new Date(1000 * Number(s.started)); return day(date) + ', ' + time(date); };
  function fill(box, list) {
    if (!box.children.length) for (const [word, , hint] of list) box.append(el('dt', null, word), el('dd'), ...(hint ? [el('dd', { class: 'hint' }, hint)] : []));
    const values = box.querySelectorAll('dd:not(.hint)');
    list.forEach(([, text], at) => put(values[at], text));
  }
  function facts(seen) {
    const s = seen.status;
    fill(get('facts'), [
      ['Name', s.name === null ? 'none' : s.name],
      ['State', at(s)],
      ['Parent', s.mode === 'joined' ? title(seen, s.parent) : 'none'],
      ['Above it', s.ancestors.length ? s.ancestors.map((node) => title(seen, node)).join(' ‹ ') : 'nobody'],
      ['Its own clients', grouped(s.clients)],
      ['Served since its start', grouped(s.served)],
      ['Started', start(s)],
      ['Version', s.version],
      ['Ids', 'up to ' + grouped(s.nodes)],
    ]);
    fill(get('inner'), [
      ['Rank', s.rank === null ? 'none' : s.rank, 'Epoch and depth: the later root has the greater epoch, and the depth counts the steps down from it. A node joins only one of better rank.'],
      ['Asks (seq)', grouped(s.seq), 'How often it has asked another node to be its parent.'],
      ['Change log', grouped(s.log.acked) + ' of ' + grouped(s.log.length) + ' acknowledged', 'Its news for its parent. Each is a certificate: that a node is up beneath another one, or down.'],
      ['Count (number)', grouped(s.number), 'How often it has told how many clients it served.'],
      ['Clock', grouped(s.clock) + ' s', 'Its own, by which leases end.'],
      ['Chain', String(s.chain), 'The nodes from 1 to this one, of which the first that is up acts as root.'],
      ['Chunk', size(s.chunk), 'The most bytes of a group that one message has.'],
    ]);
  }
  function groups(seen) {
    const text = JSON.stringify(seen.status.groups), box = get('groups');
    if (box.dataset.text === text) return;
    box.dataset.text = text;
    box.replaceChildren(...seen.status.groups.map((group) => el('div', { class: 'group' }, el('span', { class: 'name' }, group.name),
      el('span', { class: 'size' }, el('span', null, grouped(group.bytes) + '\u00a0bytes' + (Number(group.bytes) < 1024 ? '' : ' · ' + size(group.bytes))),
        el('span', { class: 'seal' }, mark(group.sealed ? 'sealed' : 'open'), group.sealed ? 'sealed' : 'open, may grow')))));
    if (!seen.status.groups.length) box.replaceChildren(el('p', { class: 'quiet' }, 'It holds none.'));
  }
  function leases(seen) {
    const s = seen.status, box = get('leases'), key = s.children.map((it) => title(seen, it.node)).join();
    get('children').hidden = s.children.length === 0;
    if (box.dataset.key !== key) {
      box.dataset.key = key;
      box.replaceChildren(...s.children.map((it) => el('div', { class: seen.names.has(it.node) ? 'lease is-named' : 'lease' }, el('span', null, title(seen, it.node)), el('meter', { min: 0, max: LEASE, low: 10, 'aria-label': 'Seconds of the lease of node ' + it.node }), el('span', { class: 'rate' }))));
    }
    s.children.forEach((it, at) => {
      const [, meter, rate] = box.children[at].children, rest = left(s, it);
      meter.value = rest === null ? 0 : Math.min(LEASE, rest);
      put(rate, (rest === null ? 'no end set' : rest + ' s') + ' · ' + (String(it.rate) === '0' ? 'no rate' : size(it.rate) + '/s'));
    });
  }
  const left = (status, child) => child.lease === null ? null : Math.max(0, Number(child.lease) - Number(status.clock));
  function table(seen) {
    const s = seen.status, body = get('rows');
    put(get('caption'), 'Node ' + s.node + ', ' + at(s) + ', and each node of its table: ' + many(s.table.length, 'row', 'rows') + '. ' + (s.missing.length ? 'Missing: ' + ranges(s.missing.map((it) => it.node)) + '.' : ''));
    const list = [[s.node, 'here', null, s.mode === 'joined' ? s.parent : null, s.clients, s.seq, s.number, null],
      ...s.table.map((row) => [row.node, row.node === s.node ? 'own' : state(row), row.heard, row.parent, row.clients, row.seq, row.number, seen.children.get(row.node)])];
    while (body.children.length > list.length) body.lastChild.remove();
    while (body.children.length < list.length) body.append(el('tr', null, el('th', { scope: 'row' }), el('td', { class: 'word named' }), el('td', { class: 'word' }), ...['heard of', 'parent', 'clients', 'ask', 'count', 'lease', 'rate'].map((says) => el('td', { 'data-column': says }))));
    list.forEach(([node, kind, heard, parent, served, seq, number, child], at) => {
      const cells = body.children[at].children, rest = child ? left(s, child) : null;
      put(cells[0], String(node));
      put(cells[1], seen.names.get(node) || '');
      if (cells[2].dataset.kind !== kind) { cells[2].dataset.kind = kind; cells[2].replaceChildren(mark(kind === 'own' ? 'here' : kind), ' ' + (kind === 'own' ? 'this node, by its table' : STATES[kind])); }
      [kind === 'here' ? '–' : heard === null ? 'not since the start' : span(Number(heard)) + ' ago', parent === null ? '–' : String(parent), grouped(served), grouped(seq), grouped(number), rest === null ? '–' : rest + ' s', child && String(child.rate) !== '0' ? size(child.rate) + '/s' : '–']
        .forEach((text, k) => { put(cells[k + 3], text); cells[k + 3].className = text === '–' ? 'none' : ''; });
    });
  }
  function show(status) {
    const seen = read(status);
    put(get('name'), 'Node ' + title(seen, status.node));
    const above = status.mode === 'joined' && status.ancestors.length > 1 ? ' (above it ' + status.ancestors.slice(1).join(', ') + ')' : '';
    put(get('what'), at(status)[0].toUpperCase() + at(status).slice(1) + above + ', ' + (seen.order.length > 1 ? 'with ' + many(seen.order.length - 1, 'node', 'nodes') + ' beneath it.' : 'with nobody beneath it.'));
    get('main').hidden = false;
    wrong(seen); counts(seen); draw(seen); facts(seen); groups(seen); leases(seen); table(seen);
  }

  // Finding a node, folding

  function point() {
    for (const it of document.querySelectorAll('.found')) it.classList.remove('found');
    if (found === null) return;
    const it = document.querySelector('.leaf[data-node="' + found + '"], li[data-node="' + found + '"]');
    if (it) it.classList.add('found');
    return it;
  }
  // the first node whose name has this text
  function byName(text) {
    const it = [...read(good).names].find(([, name]) => name.toLowerCase().includes(text));
    return it ? it[0] : null;
  }
  function find() {
    const text = get('find').value.trim();
    found = /^\d+$/.test(text) ? Number(text) : text && good ? byName(text.toLowerCase()) : null;
    if (good && found !== null) {
      const rows = new Map(good.table.map((row) => [row.node, row]));
      let node = found;
      for (let steps = 0; rows.has(node) && rows.get(node).listed && steps < 1024; steps += 1) { node = rows.get(node).parent; folds.set(node, true); }
      draw(read(good));
    }
    const it = point();
    get('find').setAttribute('aria-invalid', String(text !== '' && !it));
    if (it) it.scrollIntoView({ block: 'center' });
  }
  get('find').addEventListener('input', find);
  get('unfold').addEventListener('click', () => {
    all = get('unfold').dataset.open === 'true';
    folds = new Map();
    if (!all && good) for (const row of good.table) folds.set(row.node, false);
    if (good) draw(read(good));
  });
  get('tree').addEventListener('click', (event) => {
    const it = event.target.closest('[data-fold]');
    if (!it || !good) return;
    folds.set(Number(it.dataset.fold), it.getAttribute('aria-expanded') !== 'true');
    draw(read(good));
  });
  for (const kind in STATES) get('legend').append(el('li', null, mark(kind), STATES[kind]));

  // Reading

  function say(why) {
    const since = last || opened, seconds = Math.round((Date.now() - since) / 1000);
    const who = good ? 'Node ' + good.node : 'The node';
    const text = why === null ? ['', ''] : why === 401 || why === 403
      ? [who + ' refuses to tell its status.', 'An access rule denies “/-/status” without a token, and this page has none to send. Since ' + time(since) + '.']
      : why ? [who + ' answered ' + why + ' in the place of its status.', 'Since ' + time(since) + ', for ' + span(seconds) + '.']
      : [who + ' does not answer since ' + time(since) + '.', 'For ' + span(seconds) + (good ? '; what is shown is of that time.' : ', when this page was opened.')];
    document.body.classList.toggle('silent', why !== null);
    put(get('silence-what'), text[0]);
    put(get('silence-since'), text[1]);
    put(get('asof'), why === null ? 'As of ' + time(last) : last ? 'Last answer ' + time(last) : 'No answer yet');
    const down = good ? good.table.filter((row) => !row.up).length : 0;
    document.title = (why === null ? '' : 'No answer: ') + (good ? (good.name || 'Node ' + good.node) + (isOut(good) ? ', out of the tree' : '') + (down ? ', ' + down + ' down' : '') + ' · ' : '') + 'Overcast';
  }
  async function turn() {
    const begun = Date.now(), end = new AbortController(), timer = setTimeout(() => end.abort(), 5000);
    let why = 0;
    try {
      const reply = await fetch((location.pathname.endsWith('/') ? 'status' : '!status') + location.search, { cache: 'no-store', signal: end.signal });
      if (reply.ok) {
        good = JSON.parse(await reply.text());
        last = new Date();
        why = null;
      } else why = reply.status;
    } catch (none) { /* it did not answer, or no status */ }
    clearTimeout(timer);
    if (why === null) show(good);
    say(why);
    setTimeout(turn, Math.max(0, 1000 - (Date.now() - begun)));
  }
  turn();
})();
</script>
</body>
</html>
"##;

/// The page.
pub fn page() -> &'static str
    ensures { result.now ≡ page_text }
{
    PAGE
}

/// The page, as a text of its own.
pub(crate) fn page_copy(alloc: Global) -> Result<Vec<u8>, Memory>
    ensures { IfOk result (λ text. text.items ≡ page_text) }
{
    let mut text = Vec::new(alloc);
    put(&mut text, page().as_bytes())?;
    Ok(text)
}
